ghost use Rattle.std.specs.Prelude.{◌≡◌, List, ℕ, IfOk};

use ch_base::{Memory, Text};
use std::alloc::Global;

/// What stands in an index: it has a name and a socket.
pub trait Row {
    /// What stands beside the number of a row, where rows are found by their name. It is read without a look at the row.
    type Mark: Drop;

    ghost name: { Self → List ℕ };

    ghost socket: { Self → ℕ };

    ghost mark: { Self → Self.Mark };

    fn name(&self) -> &Text
        ensures { result.now ≡ name self.now };

    fn socket(&self) -> u64
        ensures { result ≡ socket self.now };

    fn mark(&self) -> Self::Mark
        ensures { result ≡ mark self.now };

    /// A row with the same parts.
    fn copy(&self, alloc: Global) -> Result<Self, Memory>
    where
        Self: Sized,
        ensures { IfOk result (λ r. r ≡ self.now) };
}
