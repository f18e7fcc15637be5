//! Workloads driven to their end.
//!
//! Layer: the world; public. Called by plain_commands and workload_cases.
ghost use Rattle.std.specs.Prelude.{IfOk};
ghost use Rattle.workload_gen.specs.Laws.{IsRunOf};

use crate::compiling::versions;
use crate::documents::generate;
use crate::drawing::draw;
use crate::laws::runs_end;
use document_text::Document;
use std::alloc::{AllocError, Global};
use world_core::{Events, Settings, World};

/// A workload that was driven to its end: how many packets it has, the world then, and the events that led to it.
#[derive(Drop)]
pub struct DrawnRun {
    pub packets: usize,
    pub world: World,
    pub events: Events,
}

/// Makes the document of a number and the world of its policies, and drives it by drawn events until none can happen.
/// Then all updates are done, each packet has come in once, and no copy is in flight.
pub fn drive(alloc: Global, number: u64) -> Result<DrawnRun, AllocError>
    ensures { IfOk result (λ r. IsRunOf number r.packets r.world r.events.items) }
{
    runs_end();
    let (document, mut rng) = generate(alloc, number)?;
    let versions = versions(alloc, &document)?;
    let Document {
        topology,
        packets,
        settings,
        ..
    } = document;
    let _switches = topology.switches();
    let hops = u64::from(settings.hops);
    let settings = Settings {
        hops,
        capacity: settings.capacity as usize,
        rejoins: 0,
        overlap: None,
    };
    let mut world = World::start(alloc, versions, topology, settings)?;
    let events = draw(alloc, &mut world, &packets, &mut rng)?;
    Ok(DrawnRun {
        packets: packets.len(),
        world,
        events,
    })
}
