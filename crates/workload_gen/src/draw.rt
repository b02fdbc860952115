// The draw of a worker, turn after turn.
ghost use Rattle.std.specs.Prelude.{◌≡◌, ◌<◌, ◌≤◌, ◌+◌, ◌∷◌, ◌^◌, IfOk, length};
ghost use Rattle.vd_base.specs.Geometry.{Shape};
ghost use Rattle.plan_types.specs.Valid.{IsFrom};
ghost use Rattle.plan_types.specs.declared.run.RunPlan.{RunPlan as RunOf};
ghost use Rattle.plan_types.specs.declared.run.WorkerPlan.{WorkerPlan as WorkerOf};
ghost use Rattle.workload_gen.specs.Task.{CanDraw, task_of};
ghost use Rattle.workload_gen.specs.Turns.{IsOfShare, drawn, turn_at};

use crate::task::{Task, weight_of};
use crate::turn::{Turn, chosen, next_block, position_behind, random_block};
use crate::words::{generator_of, next_words};
use plan_types::{RunPlan, WorkerPlan};
use rand_pcg::Lcg64Xsh32;
use std::alloc::Global;
use std::marker::Model;
use vd_base::{BlockNo, Geometry};
use vd_outside::NoMemory;

/// The turns of a worker, drawn one after the other. Contracts see its task and how many turns were drawn.
#[derive(Drop)]
pub struct Draw {
    task: Task,
    /// The weights of the task's shares, added up.
    weight: u64,
    generator: Lcg64Xsh32,
    position: u32,
    /// How many turns were drawn.
    turns: u64,
}

impl Model for Draw {
    ghost use Rattle.std.specs.Prelude.{◌≡◌, ℕ};
    ghost use Rattle.workload_gen.specs.Turns.{Drawing};

    ghost Value = { Drawing };

    ghost use Rattle.workload_gen.specs.Keeps.{Keeps};

    ghost view = { λ d. record { task = d.task; turns = d.turns } };

    ghost invariant = { λ d. Keeps d.task d.weight d.generator d.position d.turns };
}

impl Draw {
    /// The draw of a worker of a run over its store, of which no turn was drawn.
    pub fn new(
        alloc: Global,
        run: &RunPlan,
        worker: &WorkerPlan,
        geometry: &Geometry,
    ) -> Result<Draw, NoMemory>
        requires task { CanDraw (task_of run.now worker.now geometry.now) }
        requires shares { length run.now.shares ≤ 4096 }
        ensures made { IfOk result (λ draw. draw ≡ record { task = task_of run.now worker.now geometry.now; turns = 0 }) }
    {
        let task = Task::of(alloc, run, worker, geometry)?;
        let weight = weight_of(task.shares.as_slice());
        let generator = generator_of(task.run, task.worker);
        let position = task.start;
        Ok(Draw {
            task,
            weight,
            generator,
            position,
            turns: 0,
        })
    }

    /// The next turn.
    pub fn next(&mut self) -> Turn
        requires { self.old.turns < 2 ^ 32 }
        ensures turn { result ≡ turn_at self.old.task self.old.turns }
        ensures drawn { drawn self.new ≡ result ∷ drawn self.old }
        ensures task { self.new.task ≡ self.old.task }
        ensures turns { self.new.turns ≡ self.old.turns + 1 }
        ensures inside { result.block.0 + result.many ≤ self.old.task.blocks }
        ensures many { IsFrom 1 64 result.many }
        ensures due { result.due < 2 ^ 61 }
        ensures share { (run : RunOf) (worker : WorkerOf) (shape : Shape) → self.old.task ≡ task_of run worker shape → IsOfShare run worker shape result }
    {
        let words = next_words(&mut self.generator);
        let blocks = self.task.blocks;
        let share = chosen(
            self.task.shares.as_slice(),
            u64::from(words.share) % self.weight,
        );
        let block = if words.random % 100 < share.seekpct {
            random_block(blocks, share.many, words.block)
        } else {
            let block = next_block(blocks, share.many, self.position);
            self.position = position_behind(blocks, share.many, block);
            block
        };
        let due = self.task.due_at(self.turns);
        self.turns += 1;
        Turn {
            block: BlockNo(block),
            many: share.many,
            read: words.read % 100 < share.rdpct,
            due,
            share: share.place,
        }
    }
}
