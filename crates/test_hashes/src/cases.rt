//! Messages and their digests: the examples of FIPS 180-4, and digests that another implementation of
//! SHA-256 gives.

/// The longest messages, as long as what the check of a page covers.
pub const LONGEST: usize = 4160;

/// What the bytes of the four messages are marked with, so that all four are different.
pub const MARKS: [u8; 4] = [0x00, 0x55, 0xAA, 0xFF];

/// A length of the four messages, and their digests in order.
pub struct Case {
    pub length: usize,
    pub digests: [&'static str; 4],
}

/// Lengths at which the padding fits into the last block, fills it, and needs one more.
pub const CASES: [Case; 8] = [
    Case {
        length: 0,
        digests: [
            "e3b0c44298fc1c149afbf4c8996fb92427ae41e4649b934ca495991b7852b855",
            "e3b0c44298fc1c149afbf4c8996fb92427ae41e4649b934ca495991b7852b855",
            "e3b0c44298fc1c149afbf4c8996fb92427ae41e4649b934ca495991b7852b855",
            "e3b0c44298fc1c149afbf4c8996fb92427ae41e4649b934ca495991b7852b855",
        ],
    },
    Case {
        length: 55,
        digests: [
            "463eb28e72f82e0a96c0a4cc53690c571281131f672aa229e0d45ae59b598b59",
            "b9426c59e436bedba3e1982051bfa2ef941b6fbf7355abdd20131b4eeb4a4a24",
            "68e320816703edaad94c883c7b45c5fa7c940a2941665158d8127948d3ea1701",
            "c7d053ff9b2f821dec7e62ccc69fcbb4c87e6160886f4e00c97785b0ecbeca09",
        ],
    },
    Case {
        length: 56,
        digests: [
            "da2ae4d6b36748f2a318f23e7ab1dfdf45acdc9d049bd80e59de82a60895f562",
            "b8e50a6194b7ec9f193237346ce532d9a1cae97468c79327a1b8f6d1e7503a0b",
            "f1782a4c6b3d2420497c40ccce08d1d2ab413d5f2b80176217352476d62dc6ad",
            "ad33529839481919ab4435bc653a1e85b72fe0c585b8807fecb54774dc141093",
        ],
    },
    Case {
        length: 63,
        digests: [
            "29af2686fd53374a36b0846694cc342177e428d1647515f078784d69cdb9e488",
            "d09b7b74154c65a4c6e00bbf89f19e3e14aafec4166d1198df492fc1bf4006ab",
            "864fdab18213967a48d4b39ab714afa991d1e78c0554a08fed8aaee594607552",
            "c5bc6a0bd3be1fd925001d387346390e62125991a96e34b4e032e5143960eb58",
        ],
    },
    Case {
        length: 64,
        digests: [
            "fdeab9acf3710362bd2658cdc9a29e8f9c757fcf9811603a8c447cd1d9151108",
            "d4a004eee95d19dfddec017198201c496e006e7d37cb9075815c4b315cf00843",
            "ca3c620f61bed999adcddbc5cf46698f507c93fee4a718dd1e0f5c6c6a0936ae",
            "bf86051d941bc496b3a75d2229962c216e614e8e67b4b73e293aa6960db28aba",
        ],
    },
    Case {
        length: 119,
        digests: [
            "da18797ed7c3a777f0847f429724a2d8cd5138e6ed2895c3fa1a6d39d18f7ec6",
            "dc18698be1345535a30331cdc23b7c4e906656f28674dbda3fcc2f5369984970",
            "a0a837e1ba4efbe17924656ffd9d772fb67672720f058f2e0ee6ea53be9e42e2",
            "a30ece120479ddeeb4e3c0af22972d0521cee92fca687ddd1709ef1791da2d55",
        ],
    },
    Case {
        length: 120,
        digests: [
            "f52b23db1fbb6ded89ef42a23ce0c8922c45f25c50b568a93bf1c075420bbb7c",
            "f9553e1bee0d922697c2e5845325d2024644a75c54cb7ef961ce2c8120df364d",
            "b1c246099217abf24636146ad4ffe6c5909f0f7b6d74e9513651d4b9702ae499",
            "5299e3a18d8111cc5e7cd8e2e01c9b456520964a7f730ef5a98149fe56dc84dd",
        ],
    },
    Case {
        length: 4160,
        digests: [
            "e61c7ef189445bdecb43dcf8c0548cb8d17f0cf8701293b2aac57461c59b8d02",
            "81ebeb1e0a7d7f1bdf8760f5499ab337f538af4d0660832bb05663a661497e43",
            "6c1155bdc09a3db5ab75df4ffa10613d44b09fe89625f01a6f0d25c69ec3595a",
            "0897348910b1cc59c251491bcfd0f72512c4fe8e88423b6e97bef523ecc782eb",
        ],
    },
];

/// An example, which has one message, and its digest.
pub struct Example {
    pub message: &'static [u8],
    pub digest: &'static str,
}

/// The two examples of FIPS 180-4 for SHA-256, and a message of more blocks.
pub const EXAMPLES: [Example; 3] = [
    Example {
        message: b"abc",
        digest: "ba7816bf8f01cfea414140de5dae2223b00361a396177a9cb410ff61f20015ad",
    },
    Example {
        message: b"abcdbcdecdefdefgefghfghighijhijkijkljklmklmnlmnomnopnopq",
        digest: "248d6a61d20638b8e5c026930c3e6039a33ce45964ff2167f6ecedd419db06c1",
    },
    Example {
        message: &[b'a'; 1000],
        digest: "41edece42d63e8d9bf515a9ba6932e1c20cbc9f5a5d134645adb5db1b9737ea3",
    },
];

/// The bytes of one of the four messages.
pub fn message(mark: u8) -> [u8; LONGEST] {
    let mut bytes = [0; LONGEST];
    for (index, byte) in bytes.iter_mut().enumerate() {
        *byte = (index % 251) as u8 ^ mark;
    }
    bytes
}
