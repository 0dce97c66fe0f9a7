//! What pages are told to be: pages of groups, marks, and nothing.
use page_tag::{Content, content_of, contents_of_four, mark_body, seal};
use row_messages::row_config;
use std::test::Fail;
use ufs_spec::{Block, Fence, Numbers, Page, Tag};

/// The tag of a page of data.
const DATA: Tag = Tag {
    kind: Tag::DATA,
    unit: 2,
    address: 5,
    number: 7,
    index: 0,
    size: 1,
    frontier: 6,
};

/// A blank page.
const BLANK: Page = Page {
    body: [0xFF; 4096],
    spare: [0xFF; 96],
};

/// Data are told as they were sealed, and a blank page is nothing.
#[test]
fn data_are_told_as_they_were_sealed(rt: HostRuntime) {
    let (tag, body) = (DATA, [0x5A; 4096]);
    assert!(rt; is_group_page(&content_of(&seal(&tag, &body)), &tag, &body));
    assert!(rt; is_nothing(&content_of(&BLANK)));
}

/// Zeros are the settings of a new device. With one byte of the padding set they are nothing, and
/// so they are with a boot setting of 3.
#[test]
fn settings_with_set_padding_are_nothing(rt: HostRuntime) {
    let tag = Tag {
        kind: Tag::SETTINGS,
        unit: 0,
        address: 0,
        number: 1,
        index: 0,
        size: 1,
        frontier: 0,
    };
    let mut body: Block = [0; 4096];
    assert!(rt; is_group_page(&content_of(&seal(&tag, &body)), &tag, &body));
    body[160] = 1;
    assert!(rt; is_nothing(&content_of(&seal(&tag, &body))));
    body[160] = 0;
    body[0] = 3;
    assert!(rt; is_nothing(&content_of(&seal(&tag, &body))));
}

/// Marks with a fence and without one. A mark whose fence is empty is nothing.
#[test]
fn a_mark_with_an_empty_fence_is_nothing(rt: HostRuntime) -> Result<(), Fail> {
    let config = row_config()?;
    let numbers = config.numbers();
    let fence = Some(Fence { first: 2, last: 9 });
    assert!(rt; is_mark(&content_of(&sealed_mark(numbers, fence)), fence, numbers));
    assert!(rt; is_mark(&content_of(&sealed_mark(numbers, None)), None, numbers));
    let empty = Some(Fence { first: 9, last: 2 });
    assert!(rt; is_nothing(&content_of(&sealed_mark(numbers, empty))));
    Ok(())
}

/// A mark says the sizes of regions 0 to 3 in bytes 22, 28, 29 and 30. Byte 31 is zero.
#[test]
fn a_mark_says_the_size_of_each_region(rt: HostRuntime) -> Result<(), Fail> {
    let mut numbers = row_config()?.numbers().copied();
    numbers.rpmb = [1, 0, 2, 8];
    let page = sealed_mark(&numbers, None);
    assert!(rt; page.body[22] == 1 && page.body[28] == 0 && page.body[29] == 2);
    assert!(rt; page.body[30] == 8 && page.body[31] == 0);
    assert!(rt; is_mark(&content_of(&page), None, &numbers));
    let mut body = page.body;
    body[31] = 1;
    assert!(rt; is_nothing(&content_of(&seal(&MARK, &body))));
    Ok(())
}

/// A page of the area of region 3 is told as it was sealed.
#[test]
fn an_area_page_is_told_with_its_region(rt: HostRuntime) {
    let tag = Tag {
        kind: Tag::RPMB_AREA,
        unit: 3,
        ..DATA
    };
    let body = [0x5A; 4096];
    assert!(rt; is_group_page(&content_of(&seal(&tag, &body)), &tag, &body));
}

/// Of four pages each is told as it is alone: data, a mark, the same data with a bit turned, whose
/// check is wrong, and data again; and so where two of them are blank.
#[test]
fn each_of_four_pages_is_told_as_it_is_alone(rt: HostRuntime) -> Result<(), Fail> {
    let config = row_config()?;
    let numbers = config.numbers();
    let (tag, body) = (DATA, [0x5A; 4096]);
    let data = seal(&tag, &body);
    let mark = sealed_mark(numbers, None);
    let mut torn = data;
    torn.body[4095] ^= 1;
    let told = contents_of_four(&data, &mark, &torn, &data);
    assert!(rt; is_group_page(&told.0, &tag, &body));
    assert!(rt; is_mark(&told.1, None, numbers));
    assert!(rt; is_nothing(&told.2));
    assert!(rt; is_group_page(&told.3, &tag, &body));
    let told = contents_of_four(&BLANK, &torn, &mark, &BLANK);
    assert!(rt; is_nothing(&told.0) && is_nothing(&told.1) && is_nothing(&told.3));
    assert!(rt; is_mark(&told.2, None, numbers));
    Ok(())
}

/// The tag of the mark of number 3 that records frontier 8.
const MARK: Tag = Tag {
    kind: Tag::MARK,
    unit: 0,
    address: 0,
    number: 3,
    index: 0,
    size: 1,
    frontier: 8,
};

/// This mark.
fn sealed_mark(numbers: &Numbers, fence: Option<Fence>) -> Page {
    seal(&MARK, &mark_body(numbers, fence))
}

/// Whether this is a page of a group with this tag and these data.
fn is_group_page(content: &Content, tag: &Tag, body: &Block) -> bool {
    match content {
        Content::Group(opened) => opened.tag == *tag && opened.body == *body,
        _ => false,
    }
}

/// Whether this is the mark of number 3 that records frontier 8, with this fence.
fn is_mark(content: &Content, fence: Option<Fence>, numbers: &Numbers) -> bool {
    match content {
        Content::Mark(mark) => {
            mark.number == 3 && mark.records == 8 && mark.fence == fence && mark.numbers == *numbers
        }
        _ => false,
    }
}

/// Whether this is nothing.
fn is_nothing(content: &Content) -> bool {
    matches!(content, Content::Nothing)
}
