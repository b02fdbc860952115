//! Workers, a journal and a device as one machine, and the proof that no order of events breaks it.
//!
//! It promises that a [`World`] takes exactly the events that may happen and changes as they say; that it is sound at all times,
//! after every list of events, stops and recoveries among them: no block is in two operations, the history is legal, and the
//! sectors fit what the journal knows wherever it is cut at or behind its synced records; and that a number has one schedule,
//! in which [`simulate`] finds no wrong sector.
//! It stands on `key_state` for entries and records, and on `rand_pcg` for the words of a schedule.
#![tactic(auto)]

mod entries;
mod event;
mod hold;
mod journal;
mod law;
mod machine;
mod schedule;
mod summary;
mod world;

pub use event::Event;
pub use hold::{Hold, Stage};
pub use law::{has_one_outcome, stays_sound};
pub use schedule::simulate;
pub use summary::Summary;
pub use world::World;

#[cfg(test)]
mod tests {
    use super::*;
    use key_state::Entry;
    use std::test::Fail;
    use vd_base::{BlockNo, Key, next_key};

    /// One block of two sectors and two workers: a write waits for the sync of its beginning, and half a write is recovered.
    #[test]
    fn half_a_write(rt: HostRuntime) -> Result<(), Fail> {
        let mut world = World::new(rt.alloc(), 1, 2, 2)?;
        let block = BlockNo(0);
        let write = Event::Write {
            worker: 0,
            block,
            sector: 0,
        };
        for (event, want) in [
            (Event::Claim { worker: 0, block }, true),
            (Event::Claim { worker: 1, block }, true),
            (Event::Begin { worker: 1 }, false),
            (Event::Begin { worker: 0 }, true),
            (write, false),
            (Event::Sync, true),
            (write, true),
            (Event::Stop { keep: 0 }, false),
            (Event::Stop { keep: 1 }, true),
            (Event::Recover, true),
        ] {
            let taken = world.step(&event)?;
            assert_eq!(rt; taken, want, "at {event:?}");
        }
        assert_eq!(rt; world.blocks(), 1);
        assert_eq!(rt; world.entry(block), Entry::Settled(Key::never()));
        assert_eq!(rt; (world.records(), world.synced()), (0, 0));
        Ok(())
    }

    /// One worker and two blocks of one sector, written as one list; then one of them is cleared and marked as bad.
    #[test]
    fn a_list_of_two(rt: HostRuntime) -> Result<(), Fail> {
        let mut world = World::new(rt.alloc(), 2, 1, 1)?;
        let (first, last) = (BlockNo(0), BlockNo(1));
        let claim = Event::Claim {
            worker: 0,
            block: first,
        };
        let claim_last = Event::Claim {
            worker: 0,
            block: last,
        };
        let write = Event::Write {
            worker: 0,
            block: first,
            sector: 0,
        };
        let write_last = Event::Write {
            worker: 0,
            block: last,
            sector: 0,
        };
        for (event, want, records) in [
            (claim, true, 0),
            (claim_last, true, 0),
            (claim_last, false, 0),
            (Event::Begin { worker: 0 }, true, 1),
            (Event::Sync, true, 1),
            (write, true, 1),
            (Event::Ack { worker: 0 }, false, 1),
            (write_last, true, 1),
            (Event::Ack { worker: 0 }, true, 1),
            (Event::End { worker: 0 }, true, 2),
            (Event::Release { worker: 0 }, true, 2),
            (Event::Release { worker: 0 }, true, 2),
            (Event::Release { worker: 0 }, false, 2),
            (claim, true, 2),
            (Event::Clear { worker: 0 }, true, 3),
            (
                Event::Bad {
                    worker: 0,
                    block: first,
                },
                true,
                4,
            ),
            (Event::Release { worker: 0 }, true, 4),
            (claim, false, 4),
            (Event::Turnover, true, 0),
        ] {
            let taken = world.step(&event)?;
            assert_eq!(rt; (taken, world.records()), (want, records), "at {event:?}");
        }
        assert_eq!(rt; world.blocks(), 2);
        assert_eq!(rt; world.entry(first), Entry::Bad);
        assert_eq!(rt; world.entry(last), Entry::Settled(next_key(Key::never())));
        Ok(())
    }

    /// Counts that were computed by another program.
    #[test]
    fn schedules(rt: HostRuntime) -> Result<(), Fail> {
        for (n, want) in [
            (0, (0, 0, 0, 0)),
            (1, (1, 0, 0, 0)),
            (2, (0, 2, 0, 0)),
            (100, (29, 71, 0, 0)),
            (10000, (3177, 6823, 70, 3)),
        ] {
            let counts = simulate(rt.alloc(), n)?;
            assert_eq!(rt;
                (counts.taken, counts.idle, counts.ends, counts.stops),
                want,
                "at {n}"
            );
            assert_eq!(rt; counts.wrong, 0);
        }
        Ok(())
    }
}
