//! Memory that tables of shared words are made of.

use atomic_table::{Seat, Table, TableRule};
use std::alloc::{AllocError, Global};
use std::sync::Arc;
use uring_ports::LaneMemory;

/// A `LaneMemory` that also grants what shared words take: the words of a table count as one list, and a shared value as one element.
pub trait TableMemory: LaneMemory {
    ghost use Rattle.std.specs.Prelude.{◌≡◌, ℕ, ◌≤◌, [], length, IsOk, IfOk};
    ghost use Rattle.std.specs.Arc.{arc_value};
    ghost use Rattle.atomic_table.specs.Table.{opening};

    /// A table of these words, with no slot, and its first seat.
    fn table<S, V, K, P: TableRule<S, V, K>>(
        &self,
        alloc: Global,
        words: &[u64],
        about: &K,
    ) -> Result<(Table<S, V, K, P, Global>, Seat<S, V>), AllocError>
        requires { P.holds about.now (opening words.now [] (P.first about.now)) }
        ensures words { IfOk result (λ t. t.0.shared.table_id.words ≡ length words.now) }
        ensures slots { IfOk result (λ t. t.0.shared.table_id.slots ≡ 0) }
        ensures seat { IfOk result
            (λ t. (t.1.table_id ≡ t.0.shared.table_id) × (t.1.id ≡ 0)
            × (t.1.me ≡ (P.first about.now, []))) }
        ensures key { IfOk result (λ t. t.0.shared.key ≡ about.now) }
        ensures granted { (n : ℕ) → Self.grants self.now n → length words.now ≤ n
            → IsOk result };

    /// Two owners of this value.
    fn shared<T: Drop>(
        &self,
        alloc: Global,
        value: T,
    ) -> Result<(Arc<T, Global>, Arc<T, Global>), AllocError>
        ensures value { IfOk result
            (λ owners. (arc_value owners.0 ≡ value) × (arc_value owners.1 ≡ value)) }
        ensures granted { (n : ℕ) → Self.grants self.now n → 1 ≤ n → IsOk result };
}

impl TableMemory for Global {
    fn table<S, V, K, P: TableRule<S, V, K>>(
        &self,
        alloc: Global,
        words: &[u64],
        about: &K,
    ) -> Result<(Table<S, V, K, P, Global>, Seat<S, V>), AllocError> {
        Table::of_words(alloc, words, about)
    }

    fn shared<T: Drop>(
        &self,
        alloc: Global,
        value: T,
    ) -> Result<(Arc<T, Global>, Arc<T, Global>), AllocError> {
        let owner = Arc::new(alloc, value)?;
        let other = Arc::try_clone(&owner)?;
        Ok((owner, other))
    }
}
