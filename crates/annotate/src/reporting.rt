//! The report.

ghost use Rattle.std.specs.Prelude.{◌≡◌, ◌++◌, ◌<◌, ◌==◌, ℕ, Bool, true, All, IfOk, OnOk, IsErrOf, length, map};
ghost use Rattle.call_graph.specs.Groups.{is_member};
ghost use Rattle.cg_read.specs.Profiles.{IsProfile};
ghost use Rattle.cycles.specs.Costs.{IsGroupsOf, IsInclusive};
ghost use Rattle.cycles.specs.Limits.{AreAllWithin, IsFirstOver};
ghost use Rattle.annotate.specs.Calls.{calls_text};
ghost use Rattle.annotate.specs.Files.{AreFilesShown};
ghost use Rattle.annotate.specs.Functions.{self_text};
ghost use Rattle.annotate.specs.Report.{IsReport, IsReportOf};
ghost use Rattle.report_rows.specs.Entries.{has_list, list_of};
ghost use Rattle.report_rows.specs.Ranks.{ArePlaces};
ghost use Rattle.annotate.specs.inner.Layout.{AreTexts, IsView};

use crate::calls::Calls;
use crate::error::ReportError;
use crate::heading::put_heading;
use crate::names::sum_texts;
use crate::source::Texts;
use crate::sources::put_sources;
use crate::view::View;
use byte_text::{OutOfMemory, Text};
use cg_read::{CostList, Profile};
use cycles::{Groups, groups, inclusive};
use report_rows::{
    By, End, Entry, ReportOptions, Tree, call_lists, groups_shown, lists_of, ordered, self_entries,
    totals,
};
use std::alloc::Global;

/// What was counted in each of so many lists of self rows, as texts.
fn list_texts(
    alloc: Global,
    profile: &Profile,
    by: By<'_>,
    count: usize,
) -> Result<Vec<Text>, OutOfMemory>
    requires within { AreAllWithin profile.now }
    requires lists { All (has_list by) profile.now.self_rows }
    requires below { All (λ row. list_of by row < count) profile.now.self_rows }
    ensures { (test : ℕ → ℕ → Bool)
        → ((n : ℕ) → n < count → All (λ row. (list_of by.entry row == n) ≡ test n row.func) profile.now.self_rows)
        → IfOk result (λ texts. AreTexts count (λ n. self_text profile.now (test n)) texts.items) }
{
    let entries = self_entries(alloc, &profile.self_rows, by)?;
    let lists = lists_of(alloc, count, &entries)?;
    let texts = sum_texts(alloc, profile.events.len(), &lists)?;
    Ok(texts)
}

/// What was counted in each function, as texts.
fn function_selfs(alloc: Global, profile: &Profile) -> Result<Vec<Text>, OutOfMemory>
    requires { AreAllWithin profile.now }
    ensures { IfOk result (λ texts. AreTexts (length profile.now.functions)
        (λ f. self_text profile.now (λ g. g == f)) texts.items) }
{
    list_texts(alloc, profile, By::Function, profile.functions.len())
}

/// What was counted in each group, as texts.
fn group_selfs(alloc: Global, profile: &Profile, groups: &Groups) -> Result<Vec<Text>, OutOfMemory>
    requires profile { IsProfile profile.now }
    requires within { AreAllWithin profile.now }
    requires groups { IsGroupsOf profile.now groups.now }
    ensures { IfOk result (λ texts. AreTexts (length groups.now.cyclic)
        (λ c. self_text profile.now (is_member groups.now c)) texts.items) }
{
    list_texts(alloc, profile, By::Group(groups), groups.count())
}

/// Writes the calls between functions.
fn put_calls<'a>(
    alloc: Global,
    text: &mut Text,
    view: &'a View<'a>,
    places: &'a [usize],
    tree: Tree,
    shown: &[usize],
) -> Result<(), OutOfMemory>
    requires profile { IsProfile view.now.profile.now }
    requires within { AreAllWithin view.now.profile.now }
    requires view { IsView view.now }
    requires places { ArePlaces view.now.functions.now places.now }
    requires each { length places.now ≡ length view.now.profile.now.functions }
    requires shown { All (λ group. group < length view.now.groups.now.cyclic) shown.now }
    ensures { OnOk result (text.new ≡ text.old
        ++ calls_text view.now.profile.now view.now.groups.now view.now.functions.now shown.now tree) }
{
    let calls = Calls {
        view,
        places,
        callers: call_lists(alloc, view.profile, places, End::Callee)?,
        callees: call_lists(alloc, view.profile, places, End::Caller)?,
    };
    calls.put_groups(alloc, text, tree, shown)
}

/// The text of the report, where these are the groups and what they cost.
fn write_report(
    alloc: Global,
    profile: &Profile,
    options: &ReportOptions,
    texts: &Texts,
    groups: &Groups,
    costs: &[CostList],
) -> Result<Text, OutOfMemory>
    requires sort { options.now.sort < length profile.now.events }
    requires files { options.now.auto ≡ true → AreFilesShown profile.now (map (λ t. t.0) texts.now) }
    requires within { AreAllWithin profile.now }
    requires groups { IsGroupsOf profile.now groups.now }
    requires costs { IsInclusive profile.now groups.now costs.now }
    ensures { IfOk result (λ text. IsReport profile.now groups.now costs.now options.now texts.now text) }
{
    // what holds of every profile is asked for by what is called here
    let _ = &profile.functions;
    let order = ordered(alloc, profile, groups)?;
    let totals = totals(alloc, profile)?;
    let shown = groups_shown(
        alloc,
        costs,
        options,
        totals[options.sort],
        &order.members,
        &order.places,
    )?;
    let view = View {
        alloc,
        profile,
        groups,
        costs,
        functions: &order.functions,
        members: &order.members,
        selfs: function_selfs(alloc, profile)?,
        group_selfs: group_selfs(alloc, profile, groups)?,
    };
    let mut text = Text::new(alloc);
    put_heading(alloc, &mut text, profile, options, &totals)?;
    view.put_groups(&mut text, &shown)?;
    put_calls(alloc, &mut text, &view, &order.places, options.tree, &shown)?;
    if options.auto {
        put_sources(alloc, &mut text, profile, texts)?;
    }
    Ok(text)
}

/// The text of the report on a profile: its totals, then its groups of functions, and where they are asked for the
/// calls between functions and source texts with the costs of their lines. The texts are those of the `files` of the
/// profile. `SumLimit` names the first position with a sum above 2^64 - 1.
pub fn report(
    alloc: Global,
    profile: &Profile,
    options: &ReportOptions,
    texts: &Texts,
) -> Result<Text, ReportError>
    requires sort { options.now.sort < length profile.now.events }
    requires files { options.now.auto ≡ true → AreFilesShown profile.now (map (λ t. t.0) texts.now) }
    ensures text { IfOk result (λ text. IsReportOf profile.now options.now texts.now text) }
    // Where there is a report, no sum passes the limit.
    ensures within { OnOk result (AreAllWithin profile.now) }
    ensures limit { (position : ℕ) → IsErrOf result (ReportError.SumLimit position) → IsFirstOver profile.now position }
{
    let groups = groups(alloc, profile)?;
    let costs = inclusive(alloc, profile, &groups)?;
    Ok(write_report(alloc, profile, options, texts, &groups, &costs)?)
}
