//! How far an event cuts a chain back.

ghost use Rattle.std.specs.Prelude.{◌≡◌, ℕ, ◌<◌, Some, None, IfSome, true, false};
ghost use Rattle.std.specs.Option.{option_map};
ghost use Rattle.sym_map.specs.SymbolMap.{is_entry_at};
ghost use Rattle.shadow_stack.specs.Stacks.{groups, base_of, rest_of, is_top};
ghost use Rattle.shadow_stack.specs.Changes.{beneath_call, down_to, drop_groups, is_under, is_returned_from};
ghost use Rattle.shadow_stack.specs.Changes.{remaining_groups, cut, next_func};
ghost use Rattle.shadow_stack.specs.Arenas.{LiesIn, stack_at};

use crate::arena::{Arena, Head};
use crate::frame::Kind;
use event_costs::{Event, FuncId};
use sym_map::SymMap;

/// What is beneath the innermost call with the new pc as its return address and with the new stack pointer.
fn beneath_call(arena: &Arena, head: Head, event: &Event) -> Option<Head>
    requires { LiesIn arena.now.slots head }
    ensures found { option_map (stack_at arena.now.slots) result
        ≡ beneath_call event.now (stack_at arena.now.slots head) }
    ensures lies { IfSome result (LiesIn arena.now.slots) }
{
    let mut at = head;
    'sought: while at.depth > 0 {
        let node = arena.top(at);
        if event.done.sp < node.least {
            return None;
        }
        if event.done.sp > node.greatest {
            return None;
        }
        at = at.beneath(node);
        if node.frame.kind.is_left_by(event) {
            return Some(at);
        }
    }
    None
}

/// The chain from its highest frame of a function in the innermost group on.
pub fn down_to(arena: &Arena, head: Head, func: FuncId) -> Option<Head>
    requires { LiesIn arena.now.slots head }
    ensures found { option_map (stack_at arena.now.slots) result ≡ down_to func (stack_at arena.now.slots head) }
    ensures lies { IfSome result (LiesIn arena.now.slots) }
{
    let mut at = head;
    'sought: while at.depth > 0 {
        let node = arena.top(at);
        if node.frame.func == func {
            return Some(at);
        }
        at = arena.turn(at, func);
    }
    None
}

/// The innermost group of a chain: what it begins with, and what is beneath it.
#[derive(Clone, Copy)]
struct TopGroup {
    base: Kind,
    beneath: Head,
}

fn innermost(arena: &Arena, head: Head) -> TopGroup
    requires lies { LiesIn arena.now.slots head }
    requires some { 0 < head.depth }
    ensures base { result.base ≡ base_of (groups (stack_at arena.now.slots head)) }
    ensures rest { groups (stack_at arena.now.slots result.beneath) ≡ rest_of (groups (stack_at arena.now.slots head)) }
    ensures lies { LiesIn arena.now.slots result.beneath }
    ensures shorter { result.beneath.depth < head.depth }
{
    let base = arena.base(head);
    let node = arena.top(base);
    TopGroup {
        base: node.frame.kind,
        beneath: base.beneath(node),
    }
}

/// The chain without the innermost groups that begin with a call whose stack pointer is below the new one.
fn drop_under(arena: &Arena, head: Head, event: &Event) -> Head
    requires { LiesIn arena.now.slots head }
    ensures groups { groups (stack_at arena.now.slots result)
        ≡ drop_groups (is_under event.now) (groups (stack_at arena.now.slots head)) }
    ensures lies { LiesIn arena.now.slots result }
{
    let mut at = head;
    'dropped: while at.depth > 0 {
        let group = innermost(arena, at);
        if !group.base.is_below(event) {
            return at;
        }
        at = group.beneath;
    }
    at
}

/// Whether the top frame is of this function.
fn is_top(arena: &Arena, head: Head, func: FuncId) -> bool
    requires { LiesIn arena.now.slots head }
    ensures { result ≡ is_top func (stack_at arena.now.slots head) }
{
    head.depth > 0 && arena.top(head).frame.func == func
}

/// Whether the event leads to where a function is entered.
fn enters(event: &Event, syms: &SymMap) -> bool
    ensures { result ≡ is_entry_at syms.now event.now.done.next }
{
    syms.is_entry(event.done.next)
}

/// Whether the event leaves the innermost group with an equal stack pointer: it goes on in the function beneath, which
/// isn't entered here.
fn is_returned_from(
    arena: &Arena,
    head: Head,
    group: TopGroup,
    event: &Event,
    syms: &SymMap,
    func: FuncId,
) -> bool
    requires lies { LiesIn arena.now.slots head }
    requires some { 0 < head.depth }
    requires base { group.base ≡ base_of (groups (stack_at arena.now.slots head)) }
    requires rest { groups (stack_at arena.now.slots group.beneath) ≡ rest_of (groups (stack_at arena.now.slots head)) }
    requires rest_lies { LiesIn arena.now.slots group.beneath }
    requires func { func ≡ next_func syms.now event.now }
    ensures { result ≡ is_returned_from syms.now event.now (groups (stack_at arena.now.slots head)) }
{
    if !group.base.is_level(event) {
        return false;
    }
    if enters(event, syms) {
        return false;
    }
    if down_to(arena, head, func).is_some() {
        return false;
    }
    is_top(arena, group.beneath, func)
}

/// The chain without the innermost groups that the event leaves with an equal stack pointer.
fn drop_returned(arena: &Arena, head: Head, event: &Event, syms: &SymMap, func: FuncId) -> Head
    requires lies { LiesIn arena.now.slots head }
    requires func { func ≡ next_func syms.now event.now }
    ensures groups { groups (stack_at arena.now.slots result)
        ≡ drop_groups (is_returned_from syms.now event.now) (groups (stack_at arena.now.slots head)) }
    ensures lies { LiesIn arena.now.slots result }
{
    let mut at = head;
    'dropped: while at.depth > 0 {
        let group = innermost(arena, at);
        if !is_returned_from(arena, at, group, event, syms, func) {
            return at;
        }
        at = group.beneath;
    }
    at
}

/// The chain without the groups that a jump leaves where no call has its target and its stack pointer.
fn remaining_groups(arena: &Arena, head: Head, event: &Event, syms: &SymMap, func: FuncId) -> Head
    requires lies { LiesIn arena.now.slots head }
    requires some { 0 < head.depth }
    requires func { func ≡ next_func syms.now event.now }
    ensures groups { groups (stack_at arena.now.slots result)
        ≡ remaining_groups syms.now event.now (groups (stack_at arena.now.slots head)) }
    ensures lies { LiesIn arena.now.slots result }
{
    let group = innermost(arena, head);
    if group.base.returns_by(event) {
        return group.beneath;
    }
    let under = drop_under(arena, head, event);
    drop_returned(arena, under, event, syms, func)
}

/// What a jump leaves of a chain.
pub fn cut(arena: &Arena, head: Head, event: &Event, syms: &SymMap, func: FuncId) -> Head
    requires lies { LiesIn arena.now.slots head }
    requires some { 0 < head.depth }
    requires func { func ≡ next_func syms.now event.now }
    ensures stack { stack_at arena.now.slots result ≡ cut syms.now event.now (stack_at arena.now.slots head) }
    ensures lies { LiesIn arena.now.slots result }
{
    match beneath_call(arena, head, event) {
        Some(beneath) => beneath,
        None => remaining_groups(arena, head, event, syms, func),
    }
}
