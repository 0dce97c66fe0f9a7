//! Plain states and their contents by key.
ghost use Rattle.std.specs.Prelude.{◌≡◌, List};
ghost use Rattle.ufs_spec.specs.Commands.{Command};
ghost use Rattle.ufs_spec.specs.declared.Key.{Key};
ghost use Rattle.ufs_spec.specs.declared.Numbers.{Numbers};
ghost use Rattle.ufs_spec.specs.Plain.{Plain, Shape, CanApply, after, apply, shape_of, shape_of_numbers, zero, zero_block};
ghost use Rattle.ufs_spec.specs.Keys.{AreContents, CanApplyAll, Contents, HasWholeAreas, IsCommand, IsKey, IsPlain, content, group_of, groups_of, plain_of, put_group, put_groups};

/// A command replaces the contents of its keys by those of its group, and leaves all others; so do commands one
/// after another.
pub fn command_replaces_its_keys()
    ensures one { (p : Plain) (c : Command) → CanApply p c → (k : Key) → IsKey (shape_of p) k →
        content (apply p c) k ≡ put_group (content p) (group_of p c) k }
    ensures many { (p : Plain) (cs : List Command) → CanApplyAll p cs → (k : Key) → IsKey (shape_of p) k →
        content (after p cs) k ≡ put_groups (content p) (groups_of p cs) k }
{}

/// A command leaves a plain state.
pub fn commands_keep_plain()
    ensures one { (p : Plain) (c : Command) → IsPlain p → IsCommand c → CanApply p c → IsPlain (apply p c) }
    ensures many { (p : Plain) (cs : List Command) → IsPlain p → CanApplyAll p cs → IsPlain (after p cs) }
{}

/// A new device is a plain state whose contents are all zeros.
pub fn new_device_is_zero()
    ensures plain { (n : Numbers) → IsPlain (zero n) }
    ensures zeros { (n : Numbers) (k : Key) → IsKey (shape_of_numbers n) k → content (zero n) k ≡ zero_block }
{}

/// A plain state and its contents determine each other.
pub fn plain_state_is_its_contents()
    ensures contents { (p : Plain) → IsPlain p → AreContents (shape_of p) (content p) }
    ensures back { (p : Plain) → IsPlain p → plain_of (shape_of p) (content p) ≡ p }
    ensures one { (p q : Plain) → IsPlain p → IsPlain q → shape_of p ≡ shape_of q →
        ((k : Key) → IsKey (shape_of p) k → content p k ≡ content q k) → p ≡ q }
    ensures plain { (s : Shape) (f : Contents) → AreContents s f → HasWholeAreas s →
        IsPlain (plain_of s f) × (shape_of (plain_of s f) ≡ s) }
    ensures there { (s : Shape) (f : Contents) → AreContents s f → (k : Key) → IsKey s k →
        content (plain_of s f) k ≡ f k }
{}
