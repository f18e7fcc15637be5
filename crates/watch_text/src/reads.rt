//! The lines of posts that were seen.
//!
//! Layer: the program; public. Called by thread_commands.
ghost use Rattle.std.specs.Prelude.{◌≡◌, ◌++◌, OnOk, IfOk, string_bytes};
ghost use Rattle.value_text.specs.Values.{line};
ghost use Rattle.watch_text.specs.Reads.{control_posts, post_text, posts_text};

use report_text::put_phase;
use status_board::Post;
use std::alloc::{AllocError, Global};
use std::fmt::Write;
use update_coordinator::Coordinator;
use value_text::Text;

/// A report, and after it a line for each of these posts: how many events it counts, and the phase of the updates after
/// them.
pub fn watch_text(
    alloc: Global,
    report: &Text,
    coordinator: &Coordinator,
    seen: &[Post],
) -> Result<Text, AllocError>
    ensures { IfOk result (λ t. t ≡ report.now ++ control_posts coordinator.now seen.now) }
{
    let mut out = String::new(alloc);
    out.push_str(report.as_str())?;
    put_posts(&mut out, coordinator.stamps(), seen)?;
    Ok(Text::new(out))
}

// Puts the lines of posts at the end. The policies have these stamps, in order.
fn put_posts(out: &mut String, stamps: &[u16], posts: &[Post]) -> Result<(), AllocError>
    ensures { OnOk result (string_bytes out.new ≡ string_bytes out.old ++ posts_text stamps.now posts.now) }
{
    for post in posts {
        put_post(out, stamps, post)?;
    }
    Ok(())
}

// Puts the line of a post at the end.
fn put_post(out: &mut String, stamps: &[u16], post: &Post) -> Result<(), AllocError>
    ensures { OnOk result (string_bytes out.new ≡ string_bytes out.old ++ line (post_text stamps.now post.now)) }
{
    let count = post.count;
    write!(out, "seen {count} ")?;
    put_phase(out, stamps, post.phase)?;
    out.push_str("\n")
}
