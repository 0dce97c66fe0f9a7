//! Public functions of the lower crates, each once, with values from the device's formats and from
//! another implementation of SHA-256.
use crate::plain_rows::{apply_command, new_plain};
use geometry::Config;
use nand_model::{Die, MemDie, work};
use row_messages::row_config;
use std::test::Fail;
use ufs_bytes::{Block, read_u16, read_u32, read_u64, write_u16, write_u32, write_u64};
use ufs_spec::{
    Cdb, Cmd, ConfigFault, Fence, Job, Outcome, Page, Place, Sense, Tag, Told, UnitSpec,
};

/// Fields are written and read with their highest byte first.
#[test]
fn fields_have_their_highest_byte_first(rt: HostRuntime) {
    let mut bytes = [0u8; 16];
    write_u16(&mut bytes, 1, 0x0102);
    write_u32(&mut bytes, 3, 0x03040506);
    write_u64(&mut bytes, 7, 0x0708090A0B0C0D0E);
    assert!(rt; bytes == [0, 1, 2, 3, 4, 5, 6, 7, 8, 9, 10, 11, 12, 13, 14, 0]);
    assert!(rt; read_u16(&bytes, 1) == 0x0102);
    assert!(rt; read_u32(&bytes, 3) == 0x03040506);
    assert!(rt; read_u64(&bytes, 7) == 0x0708090A0B0C0D0E);
}

/// The three refusals of a configuration, the lowest first.
#[test]
fn configurations_are_refused_in_order(rt: HostRuntime) -> Result<(), Fail> {
    let config = row_config()?;
    assert!(rt; config.numbers().slots == 64);
    let unit = UnitSpec {
        blocks: 256,
        boot: 1,
        protect: 0,
    };
    let two = [unit, unit];
    let no_unit = Config::new(4, 16, 64, &[], [1, 0, 0, 0], 64, 4);
    assert!(rt; matches!(no_unit, Err(ConfigFault::Range)));
    let nine_dies = Config::new(9, 16, 64, &two, [1, 0, 0, 0], 64, 4);
    assert!(rt; matches!(nine_dies, Err(ConfigFault::Range)));
    let one_die = Config::new(1, 16, 16, &two, [1, 0, 0, 0], 64, 4);
    assert!(rt; matches!(one_die, Err(ConfigFault::TooLittleSpare)));
    let boot_twice = Config::new(4, 16, 64, &two, [1, 0, 0, 0], 64, 4);
    assert!(rt; matches!(boot_twice, Err(ConfigFault::TwoBootUnits)));
    assert!(rt; ConfigFault::TwoBootUnits as u8 == 3);
    Ok(())
}

/// The plain device after one command of each kind.
#[test]
fn a_plain_device_after_each_kind_of_command(rt: HostRuntime) -> Result<(), Fail> {
    let alloc = rt.alloc();
    let mut plain = new_plain(alloc)?;
    apply_command(&mut plain, &Cmd::SetBoot(2));
    apply_command(&mut plain, &Cmd::SetPermanent);
    apply_command(
        &mut plain,
        &Cmd::SetKey {
            region: 0,
            key: [0x0B; 32],
        },
    );
    assert!(rt; plain.boot() == 2);
    assert!(rt; plain.permanent());
    assert!(rt; plain.key(0) == Some([0x0B; 32]));
    assert!(rt; plain.counter(0) == 0);
    assert!(rt; plain.area(0).len() == 131072);
    Ok(())
}

/// A page is sealed with the check that another SHA-256 gives, and opens again; with one bit turned
/// over it does not.
#[test]
fn a_sealed_page_opens_and_a_torn_one_does_not(rt: HostRuntime) {
    let tag = Tag {
        kind: 1,
        unit: 2,
        address: 5,
        number: 7,
        index: 0,
        size: 1,
        frontier: 6,
    };
    let body: Block = [0x5A; 4096];
    let page = page_tag::seal(&tag, &body);
    let check = [
        0x16, 0x38, 0x6C, 0xC6, 0xAE, 0x52, 0x22, 0x94, 0x96, 0x53, 0x29, 0xC6, 0x0C, 0xFC, 0x68,
        0xEB, 0x18, 0x82, 0x3D, 0x79, 0xEF, 0xFA, 0xDA, 0xAE, 0x65, 0x61, 0xA9, 0x16, 0xEB, 0x9A,
        0x7A, 0x48,
    ];
    assert!(rt; &page.spare[..12] == [0x55, 0x46, 0x53, 0x50, 2, 1, 2, 0, 0, 0, 0, 5].as_slice());
    assert!(rt;
        &page.spare[12..32]
            == [0, 0, 0, 0, 0, 0, 0, 7, 0, 0, 0, 1, 0, 0, 0, 0, 0, 0, 0, 6].as_slice()
    );
    assert!(rt; &page.spare[64..] == check.as_slice());
    assert!(rt; is_opened(&page, &tag, &body));
    let mut torn = page;
    torn.body[100] = 0x5B;
    assert!(rt; page_tag::open(&torn).is_none());
    let blank = Page {
        body: [0xFF; 4096],
        spare: [0xFF; 96],
    };
    assert!(rt; page_tag::leftover_ok(&blank, &page, &blank));
    assert!(rt; page_tag::leftover_ok(&blank, &page, &page));
    assert!(rt; page_tag::leftover_ok(&blank, &page, &torn));
    assert!(rt; !page_tag::leftover_ok(&blank, &torn, &page));
}

/// Whether the page opens, with this tag and these data.
fn is_opened(page: &Page, tag: &Tag, body: &Block) -> bool {
    match page_tag::open(page) {
        Some(found) => found.tag == *tag && found.body == *body,
        None => false,
    }
}

/// The data of a mark with a fence.
#[test]
fn a_mark_with_a_fence_has_these_bytes(rt: HostRuntime) -> Result<(), Fail> {
    let config = row_config()?;
    let body = page_tag::mark_body(config.numbers(), Some(Fence { first: 2, last: 9 }));
    let head = [
        0, 0, 0, 0, 0, 0, 0, 2, 0, 0, 0, 0, 0, 0, 0, 9, 4, 3, 0, 16, 0, 64, 1, 0, 0, 64, 0, 4, 0,
        0, 0, 0, 0, 0, 1, 0, 0, 0, 0, 0, 0, 0, 0, 64, 1, 0, 0, 0, 0, 0, 0, 64, 2, 0, 0, 0, 0,
    ];
    assert!(rt; body.starts_with(&head));
    assert!(rt; &body[57..] == [0u8; 4039].as_slice());
    Ok(())
}

/// Erase, program and read on a die in memory, and a block that goes bad.
#[test]
fn a_die_erases_programs_and_reads(rt: HostRuntime) -> Result<(), Fail> {
    let mut die = MemDie::new(rt.alloc(), 2, 3)?;
    let page = Page {
        body: [0x77; 4096],
        spare: [0x78; 96],
    };
    let place = Place {
        die: 0,
        block: 1,
        page: 0,
    };
    let program = Job::Program(place, page);
    assert!(rt; !die.can_do(&program));
    let erase = Job::Erase { die: 0, block: 1 };
    assert!(rt; die.can_do(&erase));
    assert!(rt; matches!(work(&mut die, &erase), Outcome::Done));
    assert!(rt; die.can_do(&program));
    assert!(rt; matches!(work(&mut die, &program), Outcome::Done));
    let read = Job::Read(place);
    assert!(rt; die.can_do(&read));
    assert!(rt; matches!(work(&mut die, &read), Outcome::Read(found) if found == page));
    assert!(rt; die.blocks() == 2 && die.pages() == 3 && die.failures() == 0);
    assert!(rt; !die.is_bad(1));
    Ok(())
}

/// CDBs and sense data by their tables.
#[test]
fn cdbs_are_taken_or_refused_by_their_tables(rt: HostRuntime) {
    let write = [0x2A, 0x08, 0, 0, 0, 0xFF, 0, 0, 1, 0, 0, 0, 0, 0, 0, 0];
    let taken = Cdb::Write {
        address: 255,
        blocks: 1,
        forced: true,
    };
    assert!(rt;
        matches!(
            scsi_cdb::read(&write),
            Ok(Cdb::Write {
                address: 255,
                blocks: 1,
                forced: true
            })
        )
    );
    let verify_16 = [0x8F, 0, 0, 0, 0, 0, 0, 0, 0, 0, 0, 0, 0, 1, 0, 0];
    assert!(rt; is_refused(&verify_16, Sense::INVALID_OPCODE));
    assert!(rt; matches!(scsi_cdb::read(&[0; 16]), Ok(Cdb::Nothing)));
    assert!(rt; scsi_cdb::blocks_of(&taken) == 1);
    assert!(rt; scsi_cdb::address_of(&taken) == 255);
    assert!(rt; scsi_cdb::length_of(0, &taken) == 4096);
    let reserved = [0x28, 0x01, 0, 0, 0, 0, 0, 0, 1, 0, 0, 0, 0, 0, 0, 0];
    assert!(rt; is_refused(&reserved, Sense::INVALID_FIELD));
    let sense = [
        0x70, 0, 5, 0, 0, 0, 0, 0x0A, 0, 0, 0, 0, 0x24, 0, 0, 0, 0, 0,
    ];
    assert!(rt; scsi_cdb::sense_bytes(&Sense::INVALID_FIELD) == sense);
}

/// INQUIRY has its allocation length in bytes 3 and 4 (SPC, INQUIRY command). It tells 36 bytes, and
/// takes a page code with EVPD alone.
#[test]
fn inquiry_is_taken_with_a_page_or_without(rt: HostRuntime) {
    let inquiry = [0x12, 0, 0, 0x01, 0x24, 0, 0, 0, 0, 0, 0, 0, 0, 0, 0, 0];
    let taken = Cdb::Tell {
        told: Told::Identity,
        select: 0,
        allocation: 0x0124,
    };
    assert!(rt; scsi_cdb::bytes_of(&taken) == inquiry);
    assert!(rt; matches!(scsi_cdb::read(&inquiry), Ok(cdb) if cdb == taken));
    assert!(rt; scsi_cdb::length_of(36, &taken) == 36);
    let short = Cdb::Tell {
        told: Told::Identity,
        select: 0,
        allocation: 5,
    };
    assert!(rt; scsi_cdb::length_of(36, &short) == 5);
    for place in [2usize, 5, 6, 15] {
        let mut other = inquiry;
        other[place] = 0x01;
        assert!(rt; is_refused(&other, Sense::INVALID_FIELD));
    }
    let page = Cdb::Tell {
        told: Told::Page,
        select: 0x80,
        allocation: 0x0124,
    };
    let asked = [0x12, 1, 0x80, 0x01, 0x24, 0, 0, 0, 0, 0, 0, 0, 0, 0, 0, 0];
    assert!(rt; scsi_cdb::bytes_of(&page) == asked);
    assert!(rt; matches!(scsi_cdb::read(&asked), Ok(cdb) if cdb == page));
}

/// REPORT LUNS has its selection in byte 2 and its allocation length in bytes 6 to 9 (SPC, REPORT
/// LUNS command). Three selections are there.
#[test]
fn report_luns_is_taken_with_its_selection(rt: HostRuntime) {
    let report = [0xA0, 0, 2, 0, 0, 0, 0, 0, 0x01, 0x40, 0, 0, 0, 0, 0, 0];
    let taken = Cdb::Tell {
        told: Told::Units,
        select: 2,
        allocation: 0x0140,
    };
    assert!(rt; scsi_cdb::bytes_of(&taken) == report);
    assert!(rt; matches!(scsi_cdb::read(&report), Ok(cdb) if cdb == taken));
    // Eight bytes, and eight for each of seven units.
    assert!(rt; scsi_cdb::length_of(64, &taken) == 64);
    let fourth = [0xA0, 0, 3, 0, 0, 0, 0, 0, 0x01, 0x40, 0, 0, 0, 0, 0, 0];
    assert!(rt; is_refused(&fourth, Sense::INVALID_FIELD));
    for place in [1usize, 3, 5, 10, 11] {
        let mut other = report;
        other[place] = 0x01;
        assert!(rt; is_refused(&other, Sense::INVALID_FIELD));
    }
}

/// Whether a CDB is refused with this sense.
pub(crate) fn is_refused(cdb: &[u8; 16], sense: Sense) -> bool {
    match scsi_cdb::read(cdb) {
        Ok(_) => false,
        Err(found) => found == sense,
    }
}
