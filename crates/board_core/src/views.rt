//! What a board shows of itself between turns.
ghost use Rattle.std.specs.Prelude.{ℕ, ◌≡◌, ◌<◌, ◌≤◌, ◌-◌, ◌&&◌, ◌↔◌, not, Option, Some, None, is_none, length, map, IsSome, slice_get};
ghost use Rattle.std.specs.Option.{option_map};
ghost use Rattle.task_table.specs.model.State.{Setup, State, Turn};
ghost use Rattle.mem_banks.specs.Memory.{byte_at};
ghost use Rattle.task_table.specs.model.Reading.{setup_at};
ghost use Rattle.task_table.specs.kept.Holds.{Holds as KernelHolds, task_count};
ghost use Rattle.task_table.specs.kept.Limits.{most_tasks};
ghost use Rattle.task_table.specs.kept.Parts.{line_setup};
ghost use Rattle.run_script.specs.Events.{script_data};
ghost use Rattle.run_script.specs.Scripts.{IsNext, lasts};
ghost use Rattle.board_model.specs.Script.{Scenario};
ghost use Rattle.board_model.specs.Run.{ending, end_at, end_in};
ghost use Rattle.board_core.specs.Stands.{Stands, StandsForSome, turns_of, count_of};
ghost use Rattle.board_core.specs.Views.{IsTask, IsView};
ghost use Rattle.board_core.specs.Machine.{MachineHolds};

use crate::board::Board;
use crate::machine::Machine;
use board_model::End;
use kernel_abi::Health;
use region_check::Region;
use task_table::{Kernel, LineStart, Wait};
use words_core::Flags;

/// A task between turns. The generation is the number of its present birth modulo 64. The timer is
/// its deadline in ticks and the bits that are posted then. The wait has every field of the task's
/// open call or listen, with ids instead of births.
#[derive(Clone, Copy, Debug, PartialEq, Eq)]
pub struct TaskView {
    pub generation: u8,
    pub health: Health,
    pub regs: [u32; 16],
    pub flags: Flags,
    pub posted: u32,
    pub timer: Option<(u64, u32)>,
    pub wait: Wait,
}

impl Board {
    /// Whether the run ends here: the supervisor has faulted, or no task is ready and nothing more
    /// comes from outside. The bound on turns is not looked at.
    pub fn ended(&self) -> Option<End>
        requires { StandsForSome shown self.now }
        ensures end { (x : Scenario) (s : State) → Stands shown x self.now s → result ≡ end_at x s }
        ensures before { (x : Scenario) (s : State) (left : ℕ) → Stands shown x self.now s →
            0 < left → result ≡ ending x left s }
    {
        end_by(self.choice.down, self.is_still())
    }

    /// Whether no task is chosen and nothing more comes from outside.
    fn is_still(&self) -> bool
        ensures { result ≡ (is_none self.now.choice.next && not
            (lasts (script_data self.now.script) self.now.turns)) }
    {
        self.choice.next.is_none() && !self.script.lasts(self.turns)
    }

    /// The next turn, from turn `from` on, in which something happens; None if nothing does before
    /// turn 1,000,000,000.
    pub fn next(&self, from: u32) -> Option<u32>
        ensures { (x : Scenario) (s : State) → Stands shown x self.now s →
            IsNext x.script from result }
    {
        self.script.next(from)
    }

    /// How many turns were made. This is the turn number of each state that the board stands for.
    pub fn turns(&self) -> u32
        ensures { result ≡ turns_of self.now }
    {
        self.turns
    }

    /// The time in ticks.
    pub fn now(&self) -> u64
        ensures { (x : Scenario) (s : State) → Stands shown x self.now s → result ≡ s.now }
    {
        self.machine.space.kernel.now()
    }

    /// The index of the task that ran last; 0 at the start.
    pub fn current(&self) -> usize
        ensures { (x : Scenario) (s : State) → Stands shown x self.now s → result ≡ s.current }
    {
        self.machine.space.kernel.current()
    }

    /// The number of the next call.
    pub fn next_call(&self) -> u32
        ensures { (x : Scenario) (s : State) → Stands shown x self.now s → result ≡ s.next_call }
    {
        self.machine.space.kernel.next_call()
    }

    /// How many tasks there are.
    pub fn task_count(&self) -> usize
        ensures count { result ≡ count_of self.now }
        ensures few { result ≤ most_tasks }
        ensures tasks { (x : Scenario) (s : State) → Stands shown x self.now s →
            result ≡ length s.tasks }
    {
        self.machine.space.kernel.task_count()
    }

    /// A task; None past the last one.
    pub fn task(&self, i: usize) -> Option<TaskView>
        ensures there { IsSome result ↔ (i < count_of self.now) }
        ensures view { (x : Scenario) (s : State) → Stands shown x self.now s → IsView s i result }
    {
        if i >= self.machine.space.kernel.task_count() {
            return None;
        }
        Some(view(&self.machine, i))
    }

    /// The byte at an address of the flash or of the RAM.
    pub fn byte(&self, addr: u32) -> Option<u8>
        ensures { (x : Scenario) (s : State) → Stands shown x self.now s →
            result ≡ byte_at s.memory addr }
    {
        self.machine.space.kernel.byte(addr)
    }

    /// How many bytes of RAM there are.
    pub fn ram_len(&self) -> usize
        ensures len { (x : Scenario) (s : State) → Stands shown x self.now s →
            result ≡ length s.memory.ram }
        ensures few { result ≤ 262144 }
    {
        self.machine.space.kernel.ram_len() as usize
    }

    /// All bytes of the RAM.
    pub fn read_ram(&self, out: &mut [u8])
        requires { (x : Scenario) × (s : State) × Stands shown x self.now s
            × (length out.old ≡ length s.memory.ram) }
        ensures { (x : Scenario) (s : State) → Stands shown x self.now s → out.new ≡ s.memory.ram }
    {
        self.machine.space.kernel.read_ram(out);
    }

    /// Whether an interrupt line is enabled, and whether it is pending; None past the last one.
    pub fn irq_line(&self, k: usize) -> Option<(bool, bool)>
        ensures { (x : Scenario) (s : State) → Stands shown x self.now s →
            result ≡ option_map (λ l. (l.enabled, l.pending)) (slice_get s.lines k) }
    {
        match self.machine.space.kernel.line(k) {
            Some(line) => Some((line.enabled, line.pending)),
            None => None,
        }
    }

    /// The owners of the interrupt lines that have one, in the order of the image.
    pub fn owners(&self) -> &[LineStart]
        ensures { (x : Scenario) (s : State) → Stands shown x self.now s →
            map line_setup result.now ≡ x.setup.lines }
    {
        self.machine.space.kernel.owners()
    }

    /// The regions of a task; none if there is no such task.
    pub fn regions(&self, i: usize) -> &[Region]
        ensures { (x : Scenario) (s : State) → Stands shown x self.now s →
            result.now ≡ (setup_at x.setup i).regions }
    {
        self.machine.space.kernel.regions(i)
    }

    /// Where a task begins at each birth, as the image has it, so bit 0 counts for nothing; 0 where
    /// there is no such task.
    pub fn entry(&self, i: usize) -> u32
        ensures { (x : Scenario) (s : State) → Stands shown x self.now s →
            result ≡ (setup_at x.setup i).entry }
    {
        self.machine.space.kernel.entry(i)
    }

    /// Region k of a task.
    pub fn region(&self, i: usize, k: usize) -> Option<Region>
        ensures { (x : Scenario) (s : State) → Stands shown x self.now s →
            result ≡ slice_get (setup_at x.setup i).regions k }
    {
        self.machine.space.kernel.regions(i).get(k).copied()
    }
}

/// How the run ends, by these tests in their order, if it does. The bound on turns is not looked
/// at.
fn end_by(down: bool, still: bool) -> Option<End>
    ensures { result ≡ end_in down still }
{
    if down {
        Some(End::Supervisor)
    } else if still {
        Some(End::Still)
    } else {
        None
    }
}

/// The view of a task that the kernel has.
fn kept(kernel: &Kernel, i: usize) -> TaskView
    requires { i < task_count kernel.now }
    ensures { (g : Setup) (t : Turn) → KernelHolds g kernel.now t → IsTask t.state i result }
{
    TaskView {
        generation: kernel.generation(i).number,
        health: kernel.health(i),
        regs: kernel.registers(i),
        flags: kernel.flags(i),
        posted: kernel.posted_bits(i),
        timer: match kernel.timer(i) {
            Some(timer) => Some((timer.deadline, timer.bits)),
            None => None,
        },
        wait: kernel.wait(i),
    }
}

/// The view of a task that a machine has: with the registers and flags of the processor, if the
/// processor has the task's context.
fn view(machine: &Machine, i: usize) -> TaskView
    requires { i < task_count machine.now.space.kernel }
    ensures { (g : Setup) (t : Turn) → MachineHolds shown g machine.now t →
        IsTask t.state i result }
{
    let kept = kept(&machine.space.kernel, i);
    if machine.is_loaded_for(i) {
        return TaskView {
            regs: machine.glider.runner.processor.regs.words(),
            flags: machine.glider.runner.processor.flags.told(),
            ..kept
        };
    }
    kept
}
