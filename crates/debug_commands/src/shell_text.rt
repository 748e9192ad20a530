//! What is shown of a concurrent cache.
ghost use Rattle.std.specs.Prelude.{◌≡◌, ◌++◌, OnOk, codes};
ghost use Rattle.debug_commands.specs.ShownState.{age_line, drain_word};
ghost use Rattle.debug_commands.specs.ShownState.{holder_line, item_text, items_line, lists_text};
ghost use Rattle.debug_commands.specs.ShownState.{phase_word, queues_text, shown_text};
ghost use Rattle.debug_commands.specs.ShownState.{state_text, stats_line, stripe_line, stripe_lines, task_text};
ghost use Rattle.debug_commands.specs.ShownState.{tasks_line};
ghost use Rattle.segments.specs.Queues.{queue_of};

use admission::Frequency;
use engine_base::{Drain, Item, Phase};
use maintenance::Shell;
use segments::Queue;
use shell_model::{ShellStats, Task};
use std::alloc::{AllocError, Global};
use streams::{push_count, push_counts_line, push_pieces};

/// Adds the lines that show a concurrent cache. The one error is that an allocation failed.
pub fn push_shell(alloc: Global, shell: &Shell, text: &mut Vec<u8>) -> Result<(), AllocError>
    ensures { OnOk result (text.new.items ≡ text.old.items ++ shown_text shell.now) }
{
    push_state(shell, text)?;
    push_lists(alloc, shell, text)?;
    push_age(shell.frequency(), text)?;
    push_stats(&shell.stats(), text)
}

// Adds the drain state, the holder and the next node.
fn push_state(shell: &Shell, text: &mut Vec<u8>) -> Result<(), AllocError>
    ensures { OnOk result (text.new.items ≡ text.old.items ++ state_text shell.now) }
{
    push_pieces(text, &[b"drain ", drain_word(shell.drain()), b"\n"])?;
    push_holder(shell, text)?;
    push_counts_line(text, &[(b"next ", shell.next_node())])
}

fn push_holder(shell: &Shell, text: &mut Vec<u8>) -> Result<(), AllocError>
    ensures { OnOk result (text.new.items ≡ text.old.items ++ holder_line shell.now.holder) }
{
    match shell.holder() {
        None => text.extend_from_slice(b"holder none\n"),
        Some((worker, phase, left)) => push_counts_line(
            text,
            &[
                (b"holder ", u64::from(worker.number())),
                (phase_word(phase), u64::from(left)),
            ],
        ),
    }
}

// Adds the table, the queues, the read buffers and the write queue.
fn push_lists(alloc: Global, shell: &Shell, text: &mut Vec<u8>) -> Result<(), AllocError>
    ensures { OnOk result (text.new.items ≡ text.old.items ++ lists_text shell.now) }
{
    push_table(alloc, shell, text)?;
    push_queues(alloc, shell, text)?;
    push_stripes(shell, text)?;
    push_tasks_line(text, shell.tasks())
}

fn push_table(alloc: Global, shell: &Shell, text: &mut Vec<u8>) -> Result<(), AllocError>
    ensures { OnOk result (text.new.items ≡ text.old.items ++ items_line (codes "table") shell.now.table) }
{
    let items = shell.table(alloc)?;
    push_items_line(text, b"table", items.as_slice())
}

fn push_queues(alloc: Global, shell: &Shell, text: &mut Vec<u8>) -> Result<(), AllocError>
    ensures { OnOk result (text.new.items ≡ text.old.items ++ queues_text shell.now) }
{
    push_queue(alloc, shell, b"window", Queue::Window, text)?;
    push_queue(alloc, shell, b"probation", Queue::Probation, text)?;
    push_queue(alloc, shell, b"protected", Queue::Protected, text)
}

fn push_queue(
    alloc: Global,
    shell: &Shell,
    name: &[u8],
    queue: Queue,
    text: &mut Vec<u8>,
) -> Result<(), AllocError>
    ensures { OnOk result (text.new.items ≡ text.old.items
        ++ items_line name.now (queue_of queue shell.now.queues)) }
{
    let items = shell.list(alloc, queue)?;
    push_items_line(text, name, items.as_slice())
}

fn push_stripes(shell: &Shell, text: &mut Vec<u8>) -> Result<(), AllocError>
    ensures { OnOk result (text.new.items ≡ text.old.items ++ stripe_lines shell.now.stripes shell.now.config.stripes) }
{
    for stripe in 0..shell.stripes() {
        push_stripe(stripe, shell.stripe(stripe), text)?;
    }
    Ok(())
}

fn push_stripe(stripe: u8, items: &[Item], text: &mut Vec<u8>) -> Result<(), AllocError>
    ensures { OnOk result (text.new.items ≡ text.old.items ++ stripe_line stripe items.now) }
{
    push_count(text, b"stripe ", u64::from(stripe))?;
    push_items_line(text, b"", items)
}

fn push_age(frequency: &Frequency, text: &mut Vec<u8>) -> Result<(), AllocError>
    ensures { OnOk result (text.new.items ≡ text.old.items ++ age_line frequency.now) }
{
    push_counts_line(
        text,
        &[
            (b"age ", u64::from(frequency.age())),
            (b" halvings ", frequency.halvings()),
        ],
    )
}

#[tactic(auto, unfolding(crate::specs::ShownState::stats_line))]
fn push_stats(stats: &ShellStats, text: &mut Vec<u8>) -> Result<(), AllocError>
    ensures { OnOk result (text.new.items ≡ text.old.items ++ stats_line stats.now) }
{
    let counts: [(&[u8], u64); 13] = [
        (b"hits ", stats.hits),
        (b" misses ", stats.misses),
        (b" kept ", stats.kept),
        (b" full ", stats.full),
        (b" lost ", stats.lost),
        (b" added ", stats.added),
        (b" updated ", stats.updated),
        (b" refused ", stats.refused),
        (b" evictions ", stats.evictions),
        (b" rejections ", stats.rejections),
        (b" begun ", stats.begun),
        (b" busy ", stats.busy),
        (b" removed ", stats.removed),
    ];
    push_counts_line(text, &counts)
}

// The word of a drain state.
fn drain_word(drain: Drain) -> &'static [u8]
    ensures { result.now ≡ drain_word drain }
{
    match drain {
        Drain::Idle => b"idle",
        Drain::Required => b"required",
        Drain::ToIdle => b"toidle",
        Drain::ToRequired => b"torequired",
    }
}

// The word of a phase, between spaces.
fn phase_word(phase: Phase) -> &'static [u8]
    ensures { result.now ≡ phase_word phase }
{
    match phase {
        Phase::Reads => b" reads ",
        Phase::Writes => b" writes ",
        Phase::Evictions => b" evictions ",
    }
}

// Adds a line of items, each with a space before it.
fn push_items_line(text: &mut Vec<u8>, name: &[u8], items: &[Item]) -> Result<(), AllocError>
    ensures { OnOk result (text.new.items ≡ text.old.items ++ items_line name.now items.now) }
{
    text.extend_from_slice(name)?;
    for item in items {
        push_item(text, *item)?;
    }
    text.extend_from_slice(b"\n")
}

// Adds the line of the write queue.
fn push_tasks_line(text: &mut Vec<u8>, tasks: &[Task]) -> Result<(), AllocError>
    ensures { OnOk result (text.new.items ≡ text.old.items ++ tasks_line tasks.now) }
{
    text.extend_from_slice(b"writes")?;
    for task in tasks {
        push_task(text, *task)?;
    }
    text.extend_from_slice(b"\n")
}

// Adds a space and an item.
fn push_item(text: &mut Vec<u8>, item: Item) -> Result<(), AllocError>
    ensures { OnOk result (text.new.items ≡ text.old.items ++ item_text item) }
{
    push_count(text, b" ", item.key)?;
    push_count(text, b":", item.node)
}

// The word of a task, and its item.
fn task_parts(task: Task) -> (&'static [u8], Item)
    ensures { task_text task ≡ result.0.now ++ item_text result.1 }
{
    match task {
        Task::Add(item) => (b" add", item),
        Task::Update(item) => (b" update", item),
        Task::Remove(item) => (b" remove", item),
    }
}

// Adds a task.
fn push_task(text: &mut Vec<u8>, task: Task) -> Result<(), AllocError>
    ensures { OnOk result (text.new.items ≡ text.old.items ++ task_text task) }
{
    let (word, item) = task_parts(task);
    text.extend_from_slice(word)?;
    push_item(text, item)
}
