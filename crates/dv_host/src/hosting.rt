//! Many connections at once, in turns.

ghost use Rattle.std.specs.Prelude.{◌≡◌, ◌≤◌, ◌<◌, ◌+◌, ◌↔◌, [], length, sum_by, vec_len, IfOk, IfSome, IsTrue, slice_get, Some, OnOk};
ghost use Rattle.dv_host.specs.Schedule.{HappensBy, PlaysBy};
ghost use Rattle.dv_host.specs.Host.{AreBelow, Served, Settles};
ghost use Rattle.dv_host.specs.Inner.Links.{seen_by};
ghost use Rattle.dv_host.specs.Inner.Moving.{SettlesIn};
ghost use Rattle.dv_host.specs.Inner.Serving.{Continues, ContinuesTo, with_one};

use crate::channel::Channel;
use crate::link::{Fate, Link, Told};
use crate::outside::Outside;
use crate::sessions::Sessions;
use crate::turn::SHARE;
use std::alloc::{AllocError, Global};

/// The greatest number of open connections. Further ones wait.
const LIMIT: usize = 1000;

/// The greatest number of bytes that are read from one connection at once.
const PIECE: usize = 65_536;

/// If all sessions together keep more bytes of unfinished messages than this, no connection may have more than its share.
const BUDGET: usize = 268_435_456;

/// Why serving ends before all connections are served.
#[derive(Clone, Copy, Debug, PartialEq, Eq)]
pub enum HostFault {
    /// Waiting for ready connections failed.
    Wait,
    /// Memory ran out at the start.
    NoMemory,
    /// The turns were used up.
    Turns,
}

/// Accepts a connection, if there is room and one waits, and opens its session. Returns whether one was accepted.
fn greet<O: Outside, S: Sessions>(
    alloc: Global,
    sessions: &mut S,
    outside: &mut O,
    links: &mut Vec<Link<O::Channel>>,
) -> bool
    ensures { Continues (HappensBy S.opens S.feeds S.ends) S.next O.coming O.closed O.Channel.remaining O.Channel.contents
        (with_one result) outside.old sessions.old links.old.items outside.new sessions.new links.new.items }
{
    if links.len() >= LIMIT {
        return false;
    }
    if links.reserve(1).is_err() {
        return false;
    }
    let Ok(Some(channel)) = outside.accept() else {
        return false;
    };
    match sessions.open() {
        Some(session) => links.push_reserved(Link::new(alloc, channel.number(), session, channel)),
        None => outside.close(channel, Fate::Failed),
    }
    true
}

/// Accepts connections while there is room and some wait, at most `most` of them, and returns how many.
fn greet_all<O: Outside, S: Sessions>(
    alloc: Global,
    sessions: &mut S,
    outside: &mut O,
    links: &mut Vec<Link<O::Channel>>,
    most: u64,
) -> u64
    ensures stands { Continues (HappensBy S.opens S.feeds S.ends) S.next O.coming O.closed O.Channel.remaining O.Channel.contents
        (λ count. count + result) outside.old sessions.old links.old.items outside.new sessions.new links.new.items }
    ensures few { result ≤ most }
{
    let mut count = 0;
    'greets: while count < most {
        if !greet(alloc, sessions, outside, links) {
            return count;
        }
        count += 1;
    }
    count
}

/// The place of the connection with the number.
fn place_of<C>(links: &[Link<C>], number: u64) -> Option<usize>
    ensures { IfSome result (λ place. place < length links.now) }
{
    links.binary_search_by_key(&number, |link| link.number).ok()
}

/// Whether all sessions together keep more bytes of unfinished messages than allowed.
fn is_over_budget<C>(links: &[Link<C>]) -> bool
    ensures { IsTrue result ↔ (268435456 < sum_by (λ link. link.unfinished) links.now) }
{
    let mut kept: usize = 0;
    'links: for link in links {
        kept = kept.saturating_add(link.unfinished);
    }
    kept > BUDGET
}

/// A turn of the connection at a place.
fn turn_at<O: Outside, S: Sessions>(
    sessions: &mut S,
    outside: &O,
    links: &mut Vec<Link<O::Channel>>,
    place: usize,
    piece: &mut [u8],
) -> Told
    requires there { place < vec_len links.old }
    requires room { length piece.old ≡ 65536 }
    ensures stands { Continues (HappensBy S.opens S.feeds S.ends) S.next O.coming O.closed O.Channel.remaining O.Channel.contents
        (λ count. count) outside.now sessions.old links.old.items outside.now sessions.new links.new.items }
    ensures settles { (link : _) → slice_get links.new.items place ≡ Some link → SettlesIn result (seen_by O.Channel.remaining O.Channel.contents link) }
    ensures len { vec_len links.new ≡ vec_len links.old }
{
    // The others are only checked if this one keeps more than its share.
    let over_budget = links[place].unfinished > SHARE && is_over_budget(links);
    links[place].turn(sessions, piece, over_budget)
}

/// Ends the session of the connection at a place, and closes it.
fn finish<O: Outside, S: Sessions>(
    sessions: &mut S,
    outside: &mut O,
    links: &mut Vec<Link<O::Channel>>,
    place: usize,
    fate: Fate,
)
    requires there { place < vec_len links.old }
    requires settles { (link : _) → slice_get links.old.items place ≡ Some link → Settles fate (seen_by O.Channel.remaining O.Channel.contents link) }
    ensures stands { Continues (HappensBy S.opens S.feeds S.ends) S.next O.coming O.closed O.Channel.remaining O.Channel.contents
        (λ count. count) outside.old sessions.old links.old.items outside.new sessions.new links.new.items }
    ensures len { vec_len links.new + 1 ≡ vec_len links.old }
{
    let link = links.remove(place);
    sessions.end(link.session);
    outside.close(link.channel, fate);
}

/// A turn of the connection with the number, if there is one. If it is over then, it is closed.
fn serve_one<O: Outside, S: Sessions>(
    sessions: &mut S,
    outside: &mut O,
    links: &mut Vec<Link<O::Channel>>,
    piece: &mut [u8],
    number: u64,
)
    requires room { length piece.old ≡ 65536 }
    ensures { Continues (HappensBy S.opens S.feeds S.ends) S.next O.coming O.closed O.Channel.remaining O.Channel.contents
        (λ count. count) outside.old sessions.old links.old.items outside.new sessions.new links.new.items }
{
    let Some(place) = place_of(links, number) else {
        return;
    };
    match turn_at(sessions, outside, links, place, piece) {
        Told::Waits => (),
        Told::Again => outside.again(number),
        Told::Over(fate) => finish(sessions, outside, links, place, fate),
    }
}

/// A turn of each connection that may be ready.
fn serve_ready<O: Outside, S: Sessions>(
    sessions: &mut S,
    outside: &mut O,
    links: &mut Vec<Link<O::Channel>>,
    piece: &mut [u8],
    ready: usize,
)
    requires room { length piece.old ≡ 65536 }
    ensures { Continues (HappensBy S.opens S.feeds S.ends) S.next O.coming O.closed O.Channel.remaining O.Channel.contents
        (λ count. count) outside.old sessions.old links.old.items outside.new sessions.new links.new.items }
{
    'ready: for place in 0..ready {
        let number = outside.ready(place);
        serve_one(sessions, outside, links, piece, number);
    }
}

/// Ends all sessions, and closes all connections.
fn finish_all<O: Outside, S: Sessions>(
    sessions: &mut S,
    outside: &mut O,
    links: &mut Vec<Link<O::Channel>>,
)
    ensures stands { Continues (HappensBy S.opens S.feeds S.ends) S.next O.coming O.closed O.Channel.remaining O.Channel.contents
        (λ count. count) outside.old sessions.old links.old.items outside.new sessions.new links.new.items }
    ensures none { links.new.items ≡ [] }
{
    'links: while !links.is_empty() {
        let last = links.len() - 1;
        finish(sessions, outside, links, last, Fate::Failed);
    }
}

/// Accepts and serves connections turn by turn, until so many were accepted and closed.
fn rounds<O: Outside, S: Sessions>(
    alloc: Global,
    sessions: &mut S,
    outside: &mut O,
    links: &mut Vec<Link<O::Channel>>,
    piece: &mut [u8],
    connections: u64,
    turns: u64,
) -> Result<(), HostFault>
    requires room { length piece.old ≡ 65536 }
    ensures { ContinuesTo (HappensBy S.opens S.feeds S.ends) S.next O.coming O.closed O.Channel.remaining O.Channel.contents
        result connections outside.old sessions.old links.old.items outside.new sessions.new links.new.items }
{
    let mut left = connections;
    'turns: for _ in 0..turns {
        left -= greet_all(alloc, sessions, outside, links, left);
        if left == 0 && links.is_empty() {
            return Ok(());
        }
        let Ok(ready) = outside.wait() else {
            return Err(HostFault::Wait);
        };
        serve_ready(sessions, outside, links, piece, ready);
    }
    Err(HostFault::Turns)
}

/// Room for so many bytes. A function of its own, for any size, so that no proof writes all of them out.
fn room(alloc: Global, size: usize) -> Result<Vec<u8>, AllocError>
    ensures { IfOk result (λ piece. length piece.items ≡ size) }
{
    vec![in alloc; 0u8; size]
}

/// Serves `connections` connections, many of them at once, each by a session of its own from its first byte to its last. Returns
/// `Ok` if all were accepted and closed. What happens to the sessions is a schedule of their pieces. It takes at most `turns`
/// turns, in each of which all ready connections are served.
///
/// At most 1,000 connections are open; further ones wait. When a connection is served, at most 65,536 of its bytes are read, once
/// all its replies are sent and all its bytes are fed. They are fed message by message while fewer than 65,536 bytes of replies are
/// unsent; the other bytes stay until it is served again. So a connection holds one reply, one unfinished message and a constant.
/// If all sessions together keep more than 268,435,456 bytes of unfinished messages, a connection that has more than 262,144 of
/// them is closed as `Full` before its next piece is read. So is a connection if memory runs out for a piece.
///
/// Fails with `NoMemory` if memory runs out at the start, with `Wait` if waiting for ready connections fails, and with `Turns`
/// after `turns` turns. Then the connections that were open are closed too, as `Failed`, and their sessions ended.
pub fn host<O: Outside, S: Sessions>(
    alloc: Global,
    sessions: &mut S,
    outside: &mut O,
    connections: u64,
    turns: u64,
) -> Result<(), HostFault>
    ensures { (n : _) × OnOk result (n ≡ connections)
        × (served : Served (PlaysBy (HappensBy S.opens S.feeds S.ends)) (O.coming outside.old) (O.coming outside.new)
        (O.closed outside.old) (O.closed outside.new) sessions.old sessions.new n)
        × AreBelow (S.next sessions.new) served.accepted }
{
    let Ok(mut piece) = room(alloc, PIECE) else {
        return Err(HostFault::NoMemory);
    };
    let mut links = Vec::new(alloc);
    let told = rounds(
        alloc,
        sessions,
        outside,
        &mut links,
        &mut piece,
        connections,
        turns,
    );
    finish_all(sessions, outside, &mut links);
    told
}
