//! The line of a generated workload.
//!
//! Layer: the program; public. Called by plain_commands and workload_cases.
ghost use Rattle.std.specs.Prelude.{◌≡◌, ◌++◌, OnOk, IfOk, string_bytes};
ghost use Rattle.report_text.specs.Generated.{finished_count, IsGeneratedText, counts_text};

use std::alloc::{AllocError, Global};
use std::fmt::Write;
use value_text::Text;
use world_core::{Arrival, Events, World};

/// How much there is of a workload that was driven to its end: `switches S policies K packets P events E finished F`.
/// The packets are those of its document, the events those that were done, and the finished histories those of all
/// packets that came in.
pub fn generated_text(
    alloc: Global,
    packets: usize,
    world: &World,
    events: &Events,
) -> Result<Text, AllocError>
    ensures { IfOk result (λ t. IsGeneratedText packets world.now events.now.items t) }
{
    let finished = count_finished(world.arrivals());
    let switches = world.topology().switches().len();
    let policies = world.version_count();
    let mut out = String::new(alloc);
    write!(
        out,
        "switches {switches} policies {policies} packets {packets} "
    )?;
    write!(out, "events {} finished {finished}\n", events.len())?;
    Ok(Text::new(out))
}

// How many finished histories there are. None of a packet comes twice, so each has a line `done` of its own.
fn count_finished(arrivals: &[Arrival]) -> u128
    ensures { result ≡ finished_count arrivals.now }
{
    let mut finished = 0;
    for arrival in arrivals {
        finished += arrival.finished().len() as u128;
    }
    finished
}
