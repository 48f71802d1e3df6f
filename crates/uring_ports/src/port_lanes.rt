//! The two ports over lanes: one for submissions, as large as the submission ring, and one for completions, as large as the completion ring.
ghost use Rattle.std.specs.Prelude.{◌≡◌, ℕ, ◌≤◌, [], None, IfOk, IsOk};
ghost use Rattle.uring_ports.specs.Ports.{nothing_put, sizes_of};

use crate::call_lane::{pull, put_call, put_close};
use crate::item::Item;
use crate::lane_memory::LaneMemory;
use crate::lane_rests::{take_undelivered, take_unsent};
use crate::message::{Message, WholeCalls};
use crate::ports::{AppPort, KernelPort};
use crate::pulled::{Pulled, Rests};
use rtrb::{Consumer, Producer};
use std::alloc::{AllocError, Global};
use std::marker::Model;
use uring_entry::{Cqe, Setup};
use uring_memory::Memory;

/// The application's port over lanes.
#[derive(Drop)]
pub struct AppLanes {
    calls: Producer<Message, Global, WholeCalls>,
    completions: Consumer<Cqe>,
}

impl Model for AppLanes {
    ghost use Rattle.uring_ports.specs.Lanes.{AppLanes};

    ghost Value = { AppLanes };

    ghost use Rattle.std.specs.Prelude.{◌++◌, None};
    ghost use Rattle.rtrb.specs.Ring.{sent, known_free, producer_capacity, received, known_items, consumer_capacity};
    ghost use Rattle.uring_ports.specs.Messages.{put_of, AreWhole};
    ghost use Rattle.uring_ports.specs.Lanes.{numbers_of};

    ghost view = { λ p. record { pairing = numbers_of p.calls.end ++ numbers_of p.completions.end; sizes = record { sq = producer_capacity p.calls; cq = consumer_capacity p.completions }; put = put_of (sent p.calls); got = received p.completions; saw_room = record { places = known_free p.calls; looks = None }; saw_completions = record { waiting = known_items p.completions; looks = None } } };

    ghost invariant = { λ p. AreWhole (sent p.calls) };
}

/// The dispatcher's port over lanes.
#[derive(Drop)]
pub struct KernelLanes {
    calls: Consumer<Message, Global, WholeCalls>,
    completions: Producer<Cqe>,
    // Whether the close mark was pulled.
    closed: bool,
}

impl Model for KernelLanes {
    ghost use Rattle.uring_ports.specs.Lanes.{KernelLanes};

    ghost Value = { KernelLanes };

    ghost use Rattle.std.specs.Prelude.{◌≡◌, ◌++◌, None};
    ghost use Rattle.rtrb.specs.Ring.{sent, known_free, producer_capacity, received, known_items, consumer_capacity};
    ghost use Rattle.uring_ports.specs.Messages.{begins_whole, has_close_mark, put_of, AreWhole};
    ghost use Rattle.uring_ports.specs.Lanes.{numbers_of};

    ghost view = { λ p. record { pairing = numbers_of p.calls.end ++ numbers_of p.completions.end; sizes = record { sq = consumer_capacity p.calls; cq = producer_capacity p.completions }; pulled = put_of (received p.calls); saw_calls = record { waits = begins_whole (known_items p.calls); looks = None }; delivered = sent p.completions; free = known_free p.completions } };

    ghost invariant = { λ p. AreWhole (received p.calls)
        × (p.closed ≡ has_close_mark (received p.calls)) };
}

/// The two ports of a new pair, with the sizes of this set-up's rings. `AllocError`: out of memory.
pub fn lane_ports(alloc: Global, setup: &Setup) -> Result<(AppLanes, KernelLanes), AllocError>
    ensures pair { IfOk result (λ ports. ports.1.pairing ≡ ports.0.pairing) }
    ensures app { IfOk result
        (λ ports. (ports.0.sizes ≡ sizes_of setup.now) × (ports.0.put ≡ nothing_put)
        × (ports.0.got ≡ [])) }
    ensures kernel { IfOk result
        (λ ports. (ports.1.sizes ≡ sizes_of setup.now) × (ports.1.pulled ≡ nothing_put)
        × (ports.1.delivered ≡ []) × (ports.1.free ≡ setup.now.cq)) }
{
    lane_ports_in(&alloc, alloc, setup)
}

/// As `lane_ports`, by this memory. If it grants as many elements as either ring's size, there is no error.
pub fn lane_ports_in<M: LaneMemory>(
    memory: &M,
    alloc: Global,
    setup: &Setup,
) -> Result<(AppLanes, KernelLanes), AllocError>
    ensures pair { IfOk result (λ ports. ports.1.pairing ≡ ports.0.pairing) }
    ensures app { IfOk result
        (λ ports. (ports.0.sizes ≡ sizes_of setup.now) × (ports.0.put ≡ nothing_put)
        × (ports.0.got ≡ [])) }
    ensures kernel { IfOk result
        (λ ports. (ports.1.sizes ≡ sizes_of setup.now) × (ports.1.pulled ≡ nothing_put)
        × (ports.1.delivered ≡ []) × (ports.1.free ≡ setup.now.cq)) }
    ensures granted { (n : ℕ) → M.grants memory.now n → setup.now.sq ≤ n → setup.now.cq ≤ n
        → IsOk result }
{
    let (sender, receiver) = memory.lane_with::<Message, WholeCalls>(alloc, setup.sq() as usize)?;
    let (deliverer, getter) = memory.lane::<Cqe>(alloc, setup.cq() as usize)?;
    let app = AppLanes {
        calls: sender,
        completions: getter,
    };
    let kernel = KernelLanes {
        calls: receiver,
        completions: deliverer,
        closed: false,
    };
    Ok((app, kernel))
}

impl AppPort for AppLanes {
    ghost pairing = { λ p. p.pairing };

    ghost sizes = { λ p. p.sizes };

    ghost put = { λ p. p.put };

    ghost got = { λ p. p.got };

    ghost saw_room = { λ p. p.saw_room };

    ghost saw_completions = { λ p. p.saw_completions };

    ghost dropped = { λ p. None };

    fn put(&mut self, items: &[Item]) -> bool {
        put_call(&mut self.calls, items)
    }

    fn close(&mut self) -> bool {
        put_close(&mut self.calls)
    }

    fn get(&mut self) -> Option<Cqe> {
        self.completions.pop().ok()
    }

    fn load_dropped(&mut self) -> Option<u32> {
        None
    }
}

impl KernelPort for KernelLanes {
    type App = AppLanes;

    ghost pairing = { λ p. p.pairing };

    ghost sizes = { λ p. p.sizes };

    ghost pulled = { λ p. p.pulled };

    ghost delivered = { λ p. p.delivered };

    ghost saw_calls = { λ p. p.saw_calls };

    ghost free = { λ p. p.free };

    ghost room_looks = { λ p. None };

    ghost dropped = { λ p. None };

    fn pull(&mut self, items: &mut Vec<Item>) -> Pulled {
        if self.closed {
            items.clear();
            return Pulled::Nothing;
        }
        let pulled = pull(&mut self.calls, items);
        self.closed = pulled == Pulled::Close;
        pulled
    }

    fn room(&mut self) -> usize {
        self.completions.slots()
    }

    fn deliver(&mut self, completion: Cqe) {
        self.completions.push_reserved(completion);
    }

    fn store_dropped(&mut self, _word: u32) {}

    fn settle_in<M: Memory>(
        self,
        memory: &M,
        alloc: Global,
        app: AppLanes,
    ) -> Result<Rests, (AppLanes, KernelLanes)> {
        let Ok(mut unsent) = memory.list(alloc, self.calls.capacity()) else {
            return Err((app, self));
        };
        let Ok(mut undelivered) = memory.list(alloc, app.completions.capacity()) else {
            return Err((app, self));
        };
        let KernelLanes {
            mut calls,
            completions: mut deliverer,
            closed: _,
        } = self;
        let AppLanes {
            calls: mut sender,
            mut completions,
        } = app;
        take_unsent(&mut calls, &mut sender, &mut unsent);
        take_undelivered(&mut completions, &mut deliverer, &mut undelivered);
        Ok(Rests {
            unsent,
            undelivered,
        })
    }
}
