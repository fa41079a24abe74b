//! The reply to a request whose calls were made.
ghost use Rattle.std.specs.Prelude.{◌≡◌, ◌∷◌, ◌++◌, map, codes, nat_lt, IfOk, string_bytes};
ghost use Rattle.std.specs.Option.{option_copied};
ghost use Rattle.ch_requests.specs.Replies.{body_of, reply_to, object_text, array_text, member_text, single_text, count_members, when, truth, cache_text, channel_text, users_text, id_text};

use crate::cached::push_cache;
use crate::json_texts::{array_text, bytes_of, member_text, object_text, single_text};
use crate::rows::row_members;
use crate::told_counts::{each_counts, named_counts, push_counts};
use ch_base::{CacheRow, ChanAnswer, Memory, Text};
use ch_json::quoted;
use ch_protocol::{AnswerList, Made};
use ch_requests::{Plan, Reply, ReplyForm, Wanted};
use std::alloc::Global;

/// The reply to a request whose calls were answered so, in the order of its plan. Its status is 200.
///
/// An answer of another kind than its call has tells nothing.
pub fn finish(alloc: Global, plan: &Plan, answers: &AnswerList) -> Result<Reply, Memory>
    ensures { IfOk result (λ reply. reply ≡ reply_to plan.now answers.now) }
{
    let body = body_of(alloc, &plan.form, answers.as_slice())?;
    Ok(Reply {
        status: 200,
        body: bytes_of(body),
    })
}

/// The body that tells what the form says.
fn body_of(alloc: Global, form: &ReplyForm, mades: &[Made]) -> Result<String, Memory>
    ensures { IfOk result (λ t. string_bytes t ≡ body_of form.now mades.now) }
{
    match form {
        ReplyForm::Empty => object_text(alloc, &[]),
        ReplyForm::Triggered(counted) => {
            let members = named_counts(alloc, counted.as_slice(), mades)?;
            channels_text(alloc, &members)
        }
        ReplyForm::Batch(counted) => {
            let values = each_counts(alloc, counted.as_slice(), mades)?;
            batch_text(alloc, &values)
        }
        ReplyForm::Channels(wanted) => {
            let members = row_members(alloc, *wanted, mades)?;
            channels_text(alloc, &members)
        }
        ReplyForm::Channel { counts, cache } => channel_text(alloc, *counts, *cache, mades),
        ReplyForm::Users => users_text(alloc, mades),
    }
}

/// Channels, each under its name.
fn channels_text(alloc: Global, members: &[String]) -> Result<String, Memory>
    ensures { IfOk result (λ t. string_bytes t ≡ single_text (codes "channels") (object_text (map string_bytes members.now))) }
{
    let channels = object_text(alloc, members)?;
    single_text(alloc, "channels", channels.as_str())
}

/// The channels of a batch, event by event.
fn batch_text(alloc: Global, values: &[String]) -> Result<String, Memory>
    ensures { IfOk result (λ t. string_bytes t ≡ single_text (codes "batch") (array_text (map string_bytes values.now))) }
{
    let batch = array_text(alloc, values)?;
    single_text(alloc, "batch", batch.as_str())
}

/// Whether the channel has a subscription, its counts, and its latest event where that was asked for.
fn channel_text(
    alloc: Global,
    wanted: Wanted,
    cache: bool,
    mades: &[Made],
) -> Result<String, Memory>
    ensures { IfOk result (λ t. string_bytes t ≡ channel_text wanted cache mades.now) }
{
    match mades {
        [
            Made::Chan(
                ChanAnswer::Looked {
                    subs,
                    users,
                    cache: row,
                },
            ),
            ..
        ] => { looked_text(alloc, wanted, *subs, *users, cache, row.as_ref()) }
        _ => object_text(alloc, &[]),
    }
}

fn looked_text(
    alloc: Global,
    wanted: Wanted,
    subs: u64,
    users: u64,
    cache: bool,
    row: Option<&CacheRow>,
) -> Result<String, Memory>
    ensures { IfOk result (λ t. string_bytes t ≡ object_text (
        member_text (codes "occupied") (truth (nat_lt 0 subs))
        ∷ count_members wanted subs users ++ when cache (member_text (codes "cache") (cache_text (option_copied row.entry))))) }
{
    let mut members = Vec::new(alloc);
    members.push(member_text(alloc, "occupied", truth(subs > 0))?)?;
    push_counts(alloc, &mut members, wanted, subs, users)?;
    push_cache(alloc, &mut members, cache, row)?;
    object_text(alloc, &members)
}

fn truth(b: bool) -> &'static str
    ensures { result.now ≡ truth b }
{
    if b { "true" } else { "false" }
}

/// The users of a presence channel.
fn users_text(alloc: Global, mades: &[Made]) -> Result<String, Memory>
    ensures { IfOk result (λ t. string_bytes t ≡ users_text mades.now) }
{
    match mades {
        [Made::Chan(ChanAnswer::Ids(ids)), ..] => ids_text(alloc, ids.as_slice()),
        _ => object_text(alloc, &[]),
    }
}

fn ids_text(alloc: Global, ids: &[Text]) -> Result<String, Memory>
    ensures { IfOk result (λ t. string_bytes t ≡ single_text (codes "users") (array_text (map id_text ids.now))) }
{
    let users = id_texts(alloc, ids)?;
    let users = array_text(alloc, &users)?;
    single_text(alloc, "users", users.as_str())
}

fn id_texts(alloc: Global, ids: &[Text]) -> Result<Vec<String>, Memory>
    ensures { IfOk result (λ texts. map string_bytes texts.items ≡ map id_text ids.now) }
{
    let mut texts = Vec::new(alloc);
    for id in ids {
        texts.push(id_text(alloc, id.as_str())?)?;
    }
    Ok(texts)
}

fn id_text(alloc: Global, id: &str) -> Result<String, Memory>
    ensures { IfOk result (λ t. string_bytes t ≡ id_text id.now) }
{
    let id = quoted(alloc, id)?;
    single_text(alloc, "id", id.as_str())
}
