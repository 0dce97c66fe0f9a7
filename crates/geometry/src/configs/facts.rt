//! Facts that a caller's proof needs: each function here does nothing, and its contract says the fact.
ghost use Rattle.ufs_spec.specs.Configs.{IsConfig};

use super::Config;

impl Config {
    /// The numbers have no fault.
    pub fn has_no_fault(&self)
        ensures { IsConfig self.now }
    {
        let _ = &self.numbers;
    }
}
