//! The comparison of two MACs.
ghost use Rattle.std.specs.Prelude.{◌≡◌, ◌↔◌, IsTrue};

/// Whether two MACs are the same. It looks at all 32 bytes of both, wherever they differ first, so
/// that its time does not tell how many bytes of a guess are right. It is meant to take the same
/// time for all MACs; no proof claims that.
#[tactic(auto, using(crate::proofs::Compared::one_more))]
pub fn same_mac(a: &[u8; 32], b: &[u8; 32]) -> bool
    ensures { IsTrue result ↔ (a.now ≡ b.now) }
{
    let mut difference = 0;
    for i in 0..32 {
        difference |= a[i] ^ b[i];
    }
    difference == 0
}
