//! What a document's settings say of its world.
//!
//! Layer: the program; public. Called by plain_commands and thread_commands.
ghost use Rattle.std.specs.Prelude.{◌≡◌};
ghost use Rattle.program_answer.specs.Sound.{AreStamps};
ghost use Rattle.program_answer.specs.Worlds.{round_of, world_settings};

use document_text::Settings;
use world_core::Settings as WorldSettings;

/// What a document's settings say of its world. If drains overlap, all stamps of the document go round.
pub fn world_settings(settings: Settings) -> WorldSettings
    requires { AreStamps settings }
    ensures { result ≡ world_settings settings }
{
    WorldSettings {
        hops: u64::from(settings.hops),
        capacity: settings.capacity as usize,
        rejoins: settings.rejoins as usize,
        overlap: round_of(settings),
    }
}

// How many stamps go round, if drains overlap.
fn round_of(settings: Settings) -> Option<u16>
    requires { AreStamps settings }
    ensures { result ≡ round_of settings }
{
    let (low, high) = settings.stamps;
    if settings.overlap {
        Some(high - low + 1)
    } else {
        None
    }
}
