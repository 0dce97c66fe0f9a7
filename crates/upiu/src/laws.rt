//! What holds of the grammar itself. The functions do nothing: their contracts are laws.
ghost use Rattle.std.specs.Prelude.{◌≡◌, ◌∷◌, ◌++◌, []};
ghost use Rattle.ufs_spec.specs.Messages.{host_fault_of, read_fault_of, spelling, zeros, IsMessage};
ghost use Rattle.ufs_spec.specs.declared.HostFault.{HostFault};
ghost use Rattle.ufs_spec.specs.declared.Message.{Message};
ghost use Rattle.ufs_spec.specs.declared.Message.TheVariants.{Command, LinkEvent, NopIn, NopOut, ReadyToTransfer, Response};
ghost use Rattle.upiu.specs.Rejects.{reject_of};

/// No two messages have one spelling.
pub fn one_spelling()
    ensures { (first second : Message) → IsMessage first → IsMessage second →
        spelling first ≡ spelling second → first ≡ second }
{}

/// The bytes of some messages: a FUA write of one block at address FFh, the READY TO TRANSFER that
/// answers it, its RESPONSE, the RESPONSE to a read of 33 blocks, with its sense data, a NOP OUT, the
/// NOP IN that answers it, and the LINK EVENT of a reset of the link.
pub fn worked_messages()
    ensures command { spelling (Command 0x20 0 7 4096 (0x2A ∷ 8 ∷ 0 ∷ 0 ∷ 0 ∷ 0xFF ∷ 0 ∷ 0 ∷ 1 ∷ zeros 7))
        ≡ (1 ∷ 0x20 ∷ 0 ∷ 7 ∷ zeros 8) ++ (0 ∷ 0 ∷ 0x10 ∷ 0 ∷ 0x2A ∷ 8 ∷ 0 ∷ 0 ∷ 0 ∷ 0xFF ∷ 0 ∷ 0 ∷ 1 ∷ zeros 7) }
    ensures ready { spelling (ReadyToTransfer 0 7 0 4096)
        ≡ (0x31 ∷ 0 ∷ 0 ∷ 7 ∷ zeros 8) ++ (0 ∷ 0 ∷ 0 ∷ 0 ∷ 0 ∷ 0 ∷ 0x10 ∷ 0 ∷ zeros 12) }
    ensures good { spelling (Response 0 0 7 0 0 0 None) ≡ (0x21 ∷ 0 ∷ 0 ∷ 7 ∷ zeros 28) }
    ensures check { let sense = 0 ∷ 0x12 ∷ 0x70 ∷ 0 ∷ 5 ∷ 0 ∷ 0 ∷ 0 ∷ 0 ∷ 0x0A ∷ 0 ∷ 0 ∷ 0 ∷ 0 ∷ 0x24 ∷ zeros 5 in
        spelling (Response 0x20 0 1 1 2 0x21000 (Some sense))
        ≡ (0x21 ∷ 0x20 ∷ 0 ∷ 1 ∷ 0 ∷ 0 ∷ 1 ∷ 2 ∷ 0 ∷ 0 ∷ 0 ∷ 0x14 ∷ 0 ∷ 2 ∷ 0x10 ∷ 0 ∷ zeros 16) ++ sense }
    ensures nop_out { spelling (NopOut 5) ≡ (0 ∷ 0 ∷ 0 ∷ 5 ∷ zeros 28) }
    ensures nop_in { spelling (NopIn 5) ≡ (0x20 ∷ 0 ∷ 0 ∷ 5 ∷ zeros 28) }
    ensures link_event { spelling (LinkEvent 2) ≡ (0x1F ∷ 0 ∷ 0 ∷ 0 ∷ 0 ∷ 2 ∷ zeros 26) }
{}

/// The faults of some bytes: 31 zeros, 33 zeros, a NOP OUT with HD set, one without, which has none,
/// a NOP IN, which no host sends, and a code that no kind has.
pub fn worked_faults()
    ensures short { host_fault_of (zeros 31) ≡ Some HostFault.Short }
    ensures long { host_fault_of (zeros 33) ≡ Some HostFault.Length }
    ensures digest { host_fault_of (0x80 ∷ 0 ∷ 0 ∷ 5 ∷ zeros 28) ≡ Some HostFault.Digest }
    ensures taken { host_fault_of (0 ∷ 0 ∷ 0 ∷ 5 ∷ zeros 28) ≡ None }
    ensures code { host_fault_of (0x20 ∷ 0 ∷ 0 ∷ 5 ∷ zeros 28) ≡ Some HostFault.Code }
    ensures no_kind { read_fault_of (0x3F ∷ 0 ∷ 0 ∷ 5 ∷ zeros 28) ≡ Some HostFault.Code }
{}

/// The REJECT of a message with a code that no kind has, with LUN 2 and tag 5; that of a kind that a
/// device sends, of one with a digest bit and an extra header segment, and of a LINK EVENT, which no host
/// sends; and none for a NOP OUT and for 31 bytes.
pub fn worked_rejects()
    ensures no_kind { reject_of (0x3E ∷ 0 ∷ 2 ∷ 5 ∷ zeros 28)
        ≡ Some ((0x3F ∷ 0 ∷ 2 ∷ 5 ∷ 0 ∷ 0 ∷ 1 ∷ zeros 5) ++ (1 ∷ zeros 19)) }
    ensures of_a_device { reject_of (0x20 ∷ 0 ∷ 0 ∷ 5 ∷ zeros 28)
        ≡ Some ((0x3F ∷ 0 ∷ 0 ∷ 5 ∷ 0 ∷ 0 ∷ 1 ∷ zeros 5) ++ (1 ∷ zeros 19)) }
    ensures with_more { reject_of (0x8F ∷ 0 ∷ 0 ∷ 5 ∷ 0 ∷ 0 ∷ 0 ∷ 0 ∷ 1 ∷ zeros 23)
        ≡ Some ((0x3F ∷ 0 ∷ 0 ∷ 5 ∷ 0 ∷ 0 ∷ 1 ∷ zeros 5) ++ (1 ∷ zeros 19)) }
    ensures link_event { reject_of (0x1F ∷ 0 ∷ 0 ∷ 0 ∷ 0 ∷ 2 ∷ zeros 26)
        ≡ Some ((0x3F ∷ 0 ∷ 0 ∷ 0 ∷ 0 ∷ 0 ∷ 1 ∷ zeros 5) ++ (1 ∷ zeros 19)) }
    ensures request { reject_of (0 ∷ 0 ∷ 0 ∷ 5 ∷ zeros 28) ≡ None }
    ensures short { reject_of (0x3E ∷ 0 ∷ 2 ∷ 5 ∷ zeros 27) ≡ None }
{}
