//! The rule of a run's cuts.

ghost use Rattle.std.specs.Prelude.{◌≡◌, ◌<◌, ◌≤◌, ◌+◌, ◌%◌, ℕ, IfOk, IfSome, IsTrue, None, Some, is_some, option_map};
ghost use Rattle.std.specs.Prelude.{true};
ghost use Rattle.shadow_stack.specs.Traces.{EventOnStack};
ghost use Rattle.sym_map.specs.SymbolMap.{SymbolMap};
ghost use Rattle.part_dump.specs.Cuts.{DumpPoints, cut_after, every_cut};
ghost use Rattle.part_dump.specs.Rules.{AreNamed, IsNotedOf, IsRuleOf, after_due, before_due, due_after};

use byte_text::{OutOfMemory, Text};
use cg_format::Trigger;
use event_costs::{FuncSet, Noted};
use std::alloc::Global;
use std::marker::Model;
use sym_map::SymMap;

/// A name that was asked for, if one was, and its functions.
#[derive(Drop)]
struct NamedFunctions {
    name: Option<Text>,
    functions: FuncSet,
}

/// When a run is cut: after each so many steps, before a function of a name and after one.
#[derive(Drop)]
pub struct DumpRule {
    alloc: Global,
    every: Option<u64>,
    before: NamedFunctions,
    after: NamedFunctions,
    /// Whether nothing was asked for, so that no cut is ever due.
    idle: bool,
}

impl Model for DumpRule {
    ghost use Rattle.std.specs.Prelude.{◌<◌, IfSome};
    ghost use Rattle.part_dump.specs.Rules.{Rule};

    ghost Value = { Rule };

    ghost view = { λ r. record {
      dump_points = record { every = r.every; before = r.before.name; after = r.after.name };
      before = r.before.functions;
      after = r.after.functions;
    } };

    ghost use Rattle.std.specs.Prelude.{◌≡◌, None, true};

    ghost invariant = { λ r. IfSome r.every (λ n. 0 < n)
        × (r.idle ≡ true → (r.every ≡ None) × (r.before.name ≡ None) × (r.after.name ≡ None)) };
}

/// A name with its functions in a map.
fn functions_named(
    alloc: Global,
    name: Option<&str>,
    syms: &SymMap,
) -> Result<NamedFunctions, OutOfMemory>
    ensures name { IfOk result (λ w. w.name ≡ option_map (λ name. name.now) name.entry) }
    ensures functions { IfOk result (λ w. AreNamed syms.now (option_map (λ name. name.now) name.entry) w.functions) }
{
    let Some(name) = name else {
        let items = Vec::new(alloc);
        return Ok(NamedFunctions {
            name: None,
            functions: FuncSet { items },
        });
    };
    let functions = syms.named(name)?;
    let name = Text::from_bytes(alloc, name.as_bytes())?;
    Ok(NamedFunctions {
        name: Some(name),
        functions,
    })
}

impl DumpRule {
    /// A rule of these options, over the functions of a map.
    pub fn new(
        alloc: Global,
        every: Option<u64>,
        before: Option<&str>,
        after: Option<&str>,
        syms: &SymMap,
    ) -> Result<DumpRule, OutOfMemory>
        requires { IfSome every (λ n. 0 < n) }
        ensures { IfOk result (λ rule. IsRuleOf syms.now (record {
          every = every;
          before = option_map (λ name. name.now) before.entry;
          after = option_map (λ name. name.now) after.entry;
        }) rule) }
    {
        let before = functions_named(alloc, before, syms)?;
        let after = functions_named(alloc, after, syms)?;
        let idle = every.is_none() && before.name.is_none() && after.name.is_none();
        Ok(DumpRule {
            alloc,
            every,
            before,
            after,
            idle,
        })
    }

    /// How many steps may follow so many before a cut stands for their number: after the next one it does.
    #[inline(always)]
    pub fn steps_to_cut(&self, steps: u64) -> u64
        ensures none { (n : ℕ) → steps < n → n ≤ steps + result → every_cut self.now.dump_points.every n ≡ None }
        ensures next { IfSome self.now.dump_points.every (λ every. (steps + result + 1) % every ≡ 0) }
    {
        match self.every {
            Some(every) => every - 1 - steps % every,
            None => u64::MAX,
        }
    }

    /// The functions that are watched for being left.
    pub fn after_set(&self) -> &FuncSet
        ensures { result.now ≡ self.now.after }
    {
        &self.after.functions
    }

    /// Whether a cut stands after an event, the last of so many, that did this to the stack of its thread. It doesn't
    /// look at how many cuts there were.
    #[inline(always)]
    pub fn due(&self, steps: u64, noted: &Noted) -> bool
        ensures due { result ≡ is_some (due_after self.now steps noted.now) }
        ensures cut { (syms : SymbolMap) (asked : DumpPoints) (x : EventOnStack) → IsRuleOf syms asked self.now
            → IsNotedOf syms self.now.after x noted.now → result ≡ is_some (cut_after syms asked steps x) }
    {
        if self.idle {
            return false;
        }
        // A copy of its own, so that what was noted needs no place in memory where nothing was asked for.
        let noted = *noted;
        self.due_cold(steps, &noted)
    }

    /// The trigger of a cut that is due.
    pub fn trigger(&self, steps: u64, noted: &Noted) -> Result<Trigger, OutOfMemory>
        requires { IsTrue (is_some (due_after self.now steps noted.now)) }
        ensures due { IfOk result (λ trigger. due_after self.now steps noted.now ≡ Some trigger) }
        ensures cut { IfOk result (λ trigger. (syms : SymbolMap) (asked : DumpPoints) (x : EventOnStack)
            → IsRuleOf syms asked self.now
            → IsNotedOf syms self.now.after x noted.now → cut_after syms asked steps x ≡ Some trigger) }
    {
        let trigger = self.first_due(steps, noted)?;
        Ok(trigger)
    }

    /// The same where something was asked for.
    #[inline(never)]
    fn due_cold(&self, steps: u64, noted: &Noted) -> bool
        ensures { result ≡ is_some (due_after self.now steps noted.now) }
    {
        self.every_due(steps).is_some()
            | self.before_due(noted).is_some()
            | self.after_due(noted).is_some()
    }

    /// The first trigger that holds, where one does.
    fn first_due(&self, steps: u64, noted: &Noted) -> Result<Trigger, OutOfMemory>
        requires { IsTrue (is_some (due_after self.now steps noted.now)) }
        ensures { IfOk result (λ trigger. due_after self.now steps noted.now ≡ Some trigger) }
    {
        if let Some(every) = self.every_due(steps) {
            return Ok(Trigger::Every(every));
        }
        if let Some(name) = self.before_due(noted) {
            return Ok(Trigger::Before(name.try_clone(self.alloc)?));
        }
        match self.after_due(noted) {
            Some(name) => Ok(Trigger::After(name.try_clone(self.alloc)?)),
            None => unreachable!(),
        }
    }

    /// How many steps there are between cuts, where one stands after so many.
    fn every_due(&self, steps: u64) -> Option<u64>
        ensures { option_map (λ every. Trigger.Every every) result ≡ every_cut self.now.dump_points.every steps }
    {
        let every = self.every?;
        if steps % every == 0 {
            Some(every)
        } else {
            None
        }
    }

    /// The name at which a cut stands before a function, where such a one was entered.
    fn before_due(&self, noted: &Noted) -> Option<&Text>
        ensures { option_map (λ name. Trigger.Before name.now) result
            ≡ before_due self.now noted.now.pushed self.now.dump_points.before }
    {
        let name = self.before.name.as_ref()?;
        let pushed = noted.pushed?;
        if self.before.functions.has(pushed) {
            Some(name)
        } else {
            None
        }
    }

    /// The name at which a cut stands after a function, where such a one was left.
    fn after_due(&self, noted: &Noted) -> Option<&Text>
        ensures { option_map (λ name. Trigger.After name.now) result ≡ after_due noted.now.left self.now.dump_points.after }
    {
        let name = self.after.name.as_ref()?;
        if noted.left { Some(name) } else { None }
    }
}
