//! An audit of a policy: what was found so far, and what a look at a state adds.
ghost use Rattle.std.specs.Prelude.{◌≡◌, ◌++◌, [], All, length, ◌<◌, IfOk, IfSome, OnOk, OnErr};
ghost use Rattle.reached.specs.Chain.{AreInOrder};
ghost use Rattle.reached.specs.Links.{values};
ghost use Rattle.reached.specs.Order.{seen_members};
ghost use Rattle.reach.specs.Reach.{AreReachable, members_in};
ghost use Rattle.policy_audit.specs.Found.{found_at};
ghost use Rattle.steps.specs.declared.event.Event.TheVariants.{Step};
ghost use Rattle.policy.specs.Terms.{terms_of};
ghost use Rattle.policy.specs.Lending.{in_force_after};
ghost use Rattle.policy_audit.specs.Look.{IsWhole, found_in, notes_of, rules_of, said_to, seen_by};
ghost use Rattle.policy_audit.specs.Text.{first_notes};

use crate::finding::Finding;
use crate::search::{add_found, finds_none};
use cap_bounds::CapRep;
use machine::{Event, Machine};
use policy::{InForce, Rule, fetched_at};
use reach::Reach;
use std::alloc::{AllocError, Global};

/// Finds the parts of rules that are broken, each once.
#[derive(Debug, Drop)]
pub struct Audit<'r> {
    /// What it audits, as it is in force.
    force: InForce<'r>,
    /// What was found so far.
    seen: Vec<Finding>,
}

impl<'r> Audit<'r> {
    /// An audit of some rules that found nothing yet. `AllocError` is out of memory.
    pub fn new(alloc: Global, rules: &'r [Rule]) -> Result<Self, AllocError>
        ensures said { IfOk result (λ audit. said_to audit ≡ terms_of rules.now) }
        ensures notes { IfOk result (λ audit. notes_of audit ≡ first_notes (terms_of rules.now)) }
        ensures whole { IfOk result IsWhole }
    {
        let force = InForce::new(alloc, rules)?;
        Ok(Audit {
            force,
            seen: Vec::new(alloc),
        })
    }

    /// Takes what is in force after the machine's next step. `AllocError` is out of memory.
    pub fn pass<C: CapRep>(&mut self, alloc: Global, machine: &Machine<C>) -> Result<(), AllocError>
        requires whole { IsWhole self.old }
        ensures rules { OnOk result (rules_of self.new ≡ in_force_after (said_to self.old) (rules_of self.old) Step machine.now) }
        ensures seen { seen_by self.new ≡ seen_by self.old }
        ensures said { said_to self.new ≡ said_to self.old }
        ensures whole { IsWhole self.new }
    {
        self.force.pass(alloc, machine, Event::Step)?;
        Ok(())
    }

    /// How many parts of rules were found to be broken.
    pub fn count(&self) -> usize
        ensures { result ≡ length (seen_by self.now) }
    {
        self.seen.len()
    }

    /// What is found before the machine's next step that was not found before, rule by rule and part by part, with all that is reachable:
    /// of each part of a rule that applies and that something reachable breaks, the first member that breaks it. `None` where each part of
    /// the rules that apply was found before, so that nothing has to be searched.
    ///
    /// # Errors
    ///
    /// Out of memory. Then nothing is found, and the audit is as it was.
    pub fn look<C: CapRep>(
        &mut self,
        alloc: Global,
        machine: &Machine<C>,
    ) -> Result<Option<(Reach<C>, Vec<Finding>)>, AllocError>
        ensures found { IfOk result (λ look. found_in look ≡ found_at (rules_of self.old) (seen_by self.old) machine.now) }
        ensures inside { IfOk result (λ look. IfSome look (λ x. All (λ f. f.member < length x.0) x.1.items)) }
        ensures reach { IfOk result (λ look. IfSome look (λ x. seen_members C.value x.0 ≡ members_in machine.now)) }
        ensures exact { IfOk result (λ look. IfSome look (λ x. AreReachable machine.now (values C.value x.0))) }
        ensures order { IfOk result (λ look. IfSome look (λ x. AreInOrder x.0)) }
        ensures seen { OnOk result (seen_by self.new
            ≡ seen_by self.old ++ found_at (rules_of self.old) (seen_by self.old) machine.now) }
        ensures same { OnErr result (seen_by self.new ≡ seen_by self.old) }
        ensures rules { rules_of self.new ≡ rules_of self.old }
        ensures said { said_to self.new ≡ said_to self.old }
        ensures whole { IsWhole self.old → IsWhole self.new }
    {
        let hart = machine.hart();
        let at = fetched_at(hart);
        let rules = self.force.rules();
        if finds_none(&self.seen, at, rules) {
            return Ok(None);
        }
        let reach = Reach::of(alloc, hart)?;
        let mut found = Vec::new(alloc);
        add_found(&mut found, reach.members(), &self.seen, at, rules)?;
        self.seen.extend_from_slice(&found)?;
        Ok(Some((reach, found)))
    }
}
