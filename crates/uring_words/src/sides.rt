//! The two sides of a ring's table, what its seats know, and a new table. No value of what seats know is made, but of `Shape`.
ghost use Rattle.std.specs.Prelude.{◌≡◌, ℕ, ◌<◌, ◌≤◌, [], length, IfOk, IsOk};
ghost use Rattle.std.specs.Arc.{arc_value};
ghost use Rattle.atomic_table.specs.Table.{opening, Splits};
ghost use Rattle.uring_words.specs.Sides.{app_part, kernel_part};

use crate::memory::TableMemory;
use atomic_table::{Seat, Split, Table, TableRule};
use std::alloc::{AllocError, Global};
use std::sync::Arc;

/// The index word at which the ring begins, and how many places it has.
#[derive(Clone, Copy)]
pub struct Shape {
    pub start: u32,
    pub size: u32,
}

/// What a seat knows: one side, at first both, or nothing.
pub struct View<App, Kernel> {
    pub is_app: bool,
    pub is_kernel: bool,
    pub app: App,
    pub kernel: Kernel,
}

/// The first seat is cut into one for each side.
pub struct Sides;

impl<App, Kernel> Split<View<App, Kernel>> for Sides {
    ghost use Rattle.uring_words.specs.Sides.{app_part, kernel_part};

    ghost left = { app_part };

    ghost right = { kernel_part };
}

/// One side's hold on the table of a ring: the table, which both sides own, and a seat of it.
pub struct Hold<App, Kernel, Rule: TableRule<(), View<App, Kernel>, Shape>> {
    pub ring: Arc<Table<(), View<App, Kernel>, Shape, Rule, Global>, Global>,
    pub seat: Seat<(), View<App, Kernel>>,
}

/// A new table of these words under a rule, as the application and then the dispatcher hold it.
pub fn new_table<App, Kernel, Rule: TableRule<(), View<App, Kernel>, Shape>, M: TableMemory>(
    memory: &M,
    alloc: Global,
    words: &[u64],
    shape: &Shape,
) -> Result<(Hold<App, Kernel, Rule>, Hold<App, Kernel, Rule>), AllocError>
    requires some { 0 < length words.now }
    requires opens { Rule.holds shape.now (opening words.now [] (Rule.first shape.now)) }
    requires cuts { (id : ℕ) → Splits (Rule.holds shape.now) id (Rule.first shape.now)
        (app_part (Rule.first shape.now)) (kernel_part (Rule.first shape.now)) }
    ensures app { IfOk result
        (λ holds. (holds.0.seat.table_id ≡ (arc_value holds.0.ring).shared.table_id)
        × ((arc_value holds.0.ring).shared.table_id.words ≡ length words.now)
        × (holds.0.seat.me ≡ (app_part (Rule.first shape.now), []))) }
    ensures kernel { IfOk result
        (λ holds. (holds.1.seat.table_id ≡ (arc_value holds.1.ring).shared.table_id)
        × ((arc_value holds.1.ring).shared.table_id.words ≡ length words.now)
        × (holds.1.seat.me ≡ (kernel_part (Rule.first shape.now), []))) }
    ensures same { IfOk result (λ holds. holds.0.seat.table_id ≡ holds.1.seat.table_id) }
    ensures granted { (n : ℕ) → M.grants memory.now n → length words.now ≤ n → IsOk result }
{
    let (table, mut seat) = memory.table(alloc, words, shape)?;
    let kernel_seat = table.shared.split_seat::<Sides>(&mut seat);
    let (app_ring, kernel_ring) = memory.shared(alloc, table)?;
    let app = Hold {
        ring: app_ring,
        seat,
    };
    let kernel = Hold {
        ring: kernel_ring,
        seat: kernel_seat,
    };
    Ok((app, kernel))
}
