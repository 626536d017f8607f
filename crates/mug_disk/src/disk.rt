// A disk as the layers above see it.
ghost use Rattle.std.specs.Prelude.{◌≡◌, ℕ, ◌≤◌, List, length, take, drop, Option, option_map, IfOk, IfSome, OnOk, OnErr};
ghost use Rattle.mug_outside.specs.Cause.{HasCause, counted};
ghost use Rattle.mug_disk.specs.Held.{Lifted, over, Torn};

use mug_outside::Failed;

/// A file of bytes, written at places and synced.
pub trait Disk {
    /// The bytes that a read gives, where they are told.
    ghost held: { Self → Option (List ℕ) };

    /// The number of writes and syncs so far, failed ones included.
    ghost moment: { Self → ℕ };

    /// How often it has failed.
    ghost faults: { Self → ℕ };

    /// The number of bytes held.
    fn len(&mut self) -> Result<u64, Failed>
        ensures told { IfOk result (λ n. IfSome (held self.old) (λ h. n ≡ length h)) }
        ensures held { held self.new ≡ held self.old }
        ensures moment { moment self.new ≡ moment self.old }
        ensures cause { HasCause (faults self.old) (faults self.new) result };

    /// Fills `into` from place `at` on, or as much of it as there is up to the end.
    fn read_at(&mut self, at: u64, into: &mut [u8]) -> Result<usize, Failed>
        ensures size { IfOk result (λ n. n ≤ length into.new) }
        ensures told { IfOk result (λ n. IfSome (held self.old) (λ h.
            take n into.new ≡ take (length into.new) (drop at h))) }
        ensures held { held self.new ≡ held self.old }
        ensures moment { moment self.new ≡ moment self.old }
        ensures cause { HasCause (faults self.old) (faults self.new) result };

    /// Writes `bytes` from place `at` on, which is at most the end.
    fn write_at(&mut self, at: u64, bytes: &[u8]) -> Result<(), Failed>
        requires { IfSome (held self.old) (λ h. at ≤ length h) }
        ensures written { OnOk result
            (held self.new ≡ option_map (over at bytes.now) (held self.old)) }
        ensures torn { OnErr result
            (Lifted (Torn at (length bytes.now)) (held self.old) (held self.new)) }
        ensures moment { moment self.new ≡ counted (moment self.old) }
        ensures cause { HasCause (faults self.old) (faults self.new) result };

    /// Makes what was written last.
    fn sync(&mut self) -> Result<(), Failed>
        ensures held { held self.new ≡ held self.old }
        ensures moment { moment self.new ≡ counted (moment self.old) }
        ensures cause { HasCause (faults self.old) (faults self.new) result };
}
