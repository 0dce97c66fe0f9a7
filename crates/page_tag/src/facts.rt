//! Facts that a caller's proof needs: each function here does nothing, and its contract says the fact.
ghost use Rattle.std.specs.Prelude.{◌≡◌, ℕ, List, length};
ghost use Rattle.ufs_spec.specs.Keys.{IsBlock};
ghost use Rattle.ufs_spec.specs.Pages.{IsSealedAs, IsTag};
ghost use Rattle.ufs_spec.specs.declared.flash.Page.{Page};
ghost use Rattle.ufs_spec.specs.declared.flash.Tag.{Tag};

/// 4096 bytes are a block.
pub(crate) fn bytes_are_a_block(bytes: &[u8])
    requires { length bytes.now ≡ 4096 }
    ensures { IsBlock bytes.now }
{}

/// A page is sealed with one tag and one block, whatever its version. `ftl_core` calls it.
pub fn one_seal()
    ensures tag { (p : Page) (t u : Tag) (b d : List ℕ) → IsTag t → IsTag u →
        IsSealedAs p t b → IsSealedAs p u d → t ≡ u }
    ensures block { (p : Page) (t u : Tag) (b d : List ℕ) → IsSealedAs p t b → IsSealedAs p u d → b ≡ d }
{}
