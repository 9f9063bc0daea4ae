//! A disk: its present bytes, and what a crash may leave of them.
ghost use Rattle.std.specs.Prelude.{◌≡◌, ◌+◌, ◌≤◌, max, List, ℕ, length, take, drop, IfOk, OnOk, OnErr};
ghost use Rattle.mq_base.specs.Outside.{HasCause};
ghost use Rattle.mq_disk.specs.Disk.{Only, NothingNew, Follows, Torn, Cut, overwritten};

use mq_base::Failed;

/// A disk of bytes, numbered from 0. A call answers `Failed` only where the disk's count of faults rose. What is
/// written or cut is pending until a sync: a crash may leave it done, not done, or done in part.
pub trait Disk: Drop {
    /// Whether the disk tells its bytes. The clauses on content hold where it does.
    ghost tells: { Type 0 };

    /// The present length, which `len` tells.
    ghost size: { Self → ℕ };

    /// The present bytes, which a read gives.
    ghost seen: { Self → List ℕ };

    /// What a crash at this moment may leave.
    ghost may_leave: { Self → List ℕ → Type 0 };

    /// How often the disk has failed, up to the last value of a u64.
    ghost faults: { Self → ℕ };

    /// The present length in bytes.
    fn len(&mut self) -> Result<u64, Failed>
        ensures value { IfOk result (λ n. n ≡ size self.old) }
        ensures size { size self.new ≡ size self.old }
        ensures seen { tells → seen self.new ≡ seen self.old }
        ensures crash { tells → NothingNew (may_leave self.old) (may_leave self.new) }
        ensures cause { HasCause (faults self.old) (faults self.new) result };

    /// Fills the buffer with the present bytes from a place on.
    fn read_at(&mut self, place: u64, buf: &mut [u8]) -> Result<(), Failed>
        requires { place + length buf.old ≤ size self.old }
        ensures bytes { tells → OnOk result (buf.new ≡ take (length buf.old) (drop place (seen self.old))) }
        ensures size { size self.new ≡ size self.old }
        ensures seen { tells → seen self.new ≡ seen self.old }
        ensures crash { tells → NothingNew (may_leave self.old) (may_leave self.new) }
        ensures cause { HasCause (faults self.old) (faults self.new) result };

    /// Writes over what is there, and past the end. Until a sync, a crash may leave any bytes in the range. A write
    /// that fails may have been done in part, and its range is pending too.
    fn write_at(&mut self, place: u64, bytes: &[u8]) -> Result<(), Failed>
        requires { place ≤ size self.old }
        ensures size { OnOk result (size self.new ≡ max (size self.old) (place + length bytes.now)) }
        ensures written { tells → OnOk result (seen self.new ≡ overwritten (seen self.old) place bytes.now) }
        ensures partly { tells → OnErr result (Torn place (length bytes.now) (seen self.old) (seen self.new)) }
        ensures crash { tells → Follows (Torn place (length bytes.now)) (may_leave self.old) (may_leave self.new) }
        ensures cause { HasCause (faults self.old) (faults self.new) result };

    /// Cuts the disk to a length. A cut that fails may have been done in part, and is pending too.
    fn cut(&mut self, len: u64) -> Result<(), Failed>
        requires { len ≤ size self.old }
        ensures size { OnOk result (size self.new ≡ len) }
        ensures cut { tells → OnOk result (seen self.new ≡ take len (seen self.old)) }
        ensures partly { tells → OnErr result (Cut len (seen self.old) (seen self.new)) }
        ensures crash { tells → Follows (Cut len) (may_leave self.old) (may_leave self.new) }
        ensures cause { HasCause (faults self.old) (faults self.new) result };

    /// After it nothing is pending: a crash leaves what a read gives. One that fails leaves pending what was pending.
    fn sync(&mut self) -> Result<(), Failed>
        ensures durable { tells → OnOk result (Only (seen self.old) (may_leave self.new)) }
        ensures size { size self.new ≡ size self.old }
        ensures seen { tells → seen self.new ≡ seen self.old }
        ensures crash { tells → NothingNew (may_leave self.old) (may_leave self.new) }
        ensures cause { HasCause (faults self.old) (faults self.new) result };

    /// After it reads give one of the outcomes of a crash, and nothing is pending. One that fails leaves pending what
    /// was pending.
    fn restart(&mut self) -> Result<(), Failed>
        ensures image { tells → OnOk result (may_leave self.old (seen self.new)) }
        ensures durable { tells → OnOk result (Only (seen self.new) (may_leave self.new)) }
        ensures crash { tells → NothingNew (may_leave self.old) (may_leave self.new) }
        ensures cause { HasCause (faults self.old) (faults self.new) result };

    /// A disk that tells its bytes has as many as it says.
    ghost size_is: { (d : Self) → tells → size d ≡ length (seen d) };

    /// The present bytes are always among the outcomes of a crash.
    ghost present: { (d : Self) → tells → may_leave d (seen d) };
}
