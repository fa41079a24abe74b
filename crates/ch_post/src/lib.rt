//! Posts of webhooks over links: a [`LinkPost`] dials, writes one HTTP request, and reads the first line of what comes back.
//!
//! A status is the three digits of that line, and comes only where the link was handed the whole request. A post fails only
//! where dialling failed, where no first line came (the link failed or ended, asked for patience a thousand times, or gave
//! `MOST_SEEN` bytes without a line end), or where the first line is no status line. A post takes no memory.
#![tactic(auto)]

mod link_post;
mod seen;
mod status_line;
mod talk;

pub use link_post::LinkPost;
