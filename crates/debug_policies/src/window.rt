//! The window of a policy.
ghost use Rattle.std.specs.Prelude.{◌≡◌, ◌++◌, Ok, OnOk};
ghost use Rattle.engine_base.specs.Config.{config_fault};
ghost use Rattle.policies.specs.Design.{design_of};
ghost use Rattle.debug_policies.specs.Window.{fixed_window, window_in, window_text};

use policies::{AnyPolicy, Design, Layout, design_of};
use std::alloc::AllocError;
use step_record::Job;
use streams::push_counts_line;

/// The window of a policy, where new keys go first.
#[derive(Clone, Copy)]
pub(crate) enum Window {
    /// It has none.
    Absent,
    /// Its size never changes.
    Fixed { size: usize },
    /// Its size in force, and that which it is to have.
    Moving { size: u32, target: u32 },
}

/// The window of a cache of the job. It requires a configuration that `Config::check` accepts.
pub(crate) fn window_in(cache: &AnyPolicy, job: &Job) -> Window
    requires { config_fault job.now.config ≡ Ok tt }
    ensures { result ≡ window_in cache.now job.now }
{
    match cache {
        AnyPolicy::Adaptive(cache) => Window::Moving {
            size: cache.window_size(),
            target: cache.target(),
        },
        AnyPolicy::Queues(_) => fixed_window(job),
        AnyPolicy::Optimal(_) => fixed_window(job),
        AnyPolicy::Demand(_) => fixed_window(job),
    }
}

// The window of a policy that never moves it.
fn fixed_window(job: &Job) -> Window
    requires { config_fault job.now.config ≡ Ok tt }
    ensures { result ≡ fixed_window (design_of job.now) job.now.config }
{
    match design_of(job) {
        Design::Queues(design) => match design.layout {
            Layout::OneQueue | Layout::TwoQueues => Window::Absent,
            Layout::ThreeQueues => Window::Fixed {
                size: design.rules(&job.config).window,
            },
        },
        Design::KnowsTrace | Design::Demand(_) | Design::Adaptive => Window::Absent,
    }
}

/// Adds the end of the line of a window. The one error is that an allocation failed.
pub(crate) fn push_window(text: &mut Vec<u8>, window: Window) -> Result<(), AllocError>
    ensures { OnOk result (text.new.items ≡ text.old.items ++ window_text window) }
{
    match window {
        Window::Absent => text.extend_from_slice(b" window none\n"),
        Window::Fixed { size } => push_counts_line(text, &[(b" window ", size as u64)]),
        Window::Moving { size, target } => push_counts_line(
            text,
            &[
                (b" window ", u64::from(size)),
                (b" target ", u64::from(target)),
            ],
        ),
    }
}
