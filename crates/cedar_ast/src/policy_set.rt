//! Policies and templates in order, by their ids.
ghost use Rattle.std.specs.Prelude.{◌≡◌, ◌≢◌, ◌≤◌, [], ◌∷◌, ◌++◌, length, slice_get, Contains, OnOk, OnErr, IfOk, IfErr, true, false, None, option_copied, string_bytes};
ghost use Rattle.indexmap.specs.IndexMap.{get_by_text};
ghost use Rattle.cedar_ast.specs.PolicySetTree.{no_policies, entered, ids_in, id_of};
ghost use Rattle.cedar_ast.specs.PolicyTree.{TemplateTree};
ghost use Rattle.cedar_ast.specs.declared.statement.Statement.TheVariants.{«Policy» as PolicyStatement};
ghost use Rattle.cedar_ast_expressions.specs.Keys.{AreDistinct};
ghost use Rattle.cedar_ast.specs.Private.PolicyIds.{keys_of};
ghost use Rattle.cedar_ast.specs.AddFault.{refused, number_of};
ghost use Rattle.cedar_ast.specs.LinkFault.{number_of as link_fault_number};
ghost use Rattle.cedar_ast.specs.Linking.{IsTemplate, HasMissingSlot, HasExtraSlot, IsLinkIn, IsLinked};

use crate::add_fault::AddFault;
use crate::link_fault::LinkFault;
use crate::linking;
use crate::policy::{Policy, Template};
use crate::slots::Slots;
use crate::statement::Statement;
use indexmap::IndexMap;
use std::alloc::{AllocFailed, Global};
use std::marker::Model;

/// Policies and templates in the order in which they were added, each with its own id. Contracts see the list of the policies
/// and the list of the templates. No id is in them twice.
#[derive(Drop)]
pub struct PolicySet {
    policies: IndexMap<String, Policy>,
    templates: IndexMap<String, Template>,
}

impl Model for PolicySet {
    ghost use Rattle.std.specs.Coded.{codes};
    ghost use Rattle.cedar_ast_expressions.specs.Private.ExpressionCode.{expression_code};
    ghost use Rattle.cedar_ast.specs.PolicySetTree.{PolicySetTree};

    ghost Value = { PolicySetTree };

    ghost coded = { Prim.hlevel (codes, expression_code) };

    ghost use Rattle.cedar_ast.specs.Private.PolicyIds.{values_in, AreById};

    ghost view = { λ s. record { policies = values_in s.policies.entries; templates = values_in s.templates.entries } };

    ghost invariant = { λ s. AreById s.policies.entries s.templates.entries };
}

impl PolicySet {
    /// A set without policies. Takes no memory.
    pub fn new(alloc: Global) -> Self
        ensures { result ≡ no_policies }
    {
        PolicySet {
            policies: IndexMap::new(alloc),
            templates: IndexMap::new(alloc),
        }
    }

    /// How many policies there are; templates do not count.
    pub fn count(&self) -> usize
        ensures policies { result ≡ length self.now.policies }
        ensures distinct { AreDistinct (ids_in self.now) }
    {
        self.policies.len()
    }

    /// The policy at a position from 0, lent, if there are so many; templates do not count.
    pub fn policy(&self, position: usize) -> Option<&Policy>
        ensures { option_copied result ≡ slice_get self.now.policies position }
    {
        let (_, policy) = self.policies.as_slice().get_index(position)?;
        Some(policy)
    }

    /// How many templates there are.
    pub fn template_count(&self) -> usize
        ensures { result ≡ length self.now.templates }
    {
        self.templates.len()
    }

    /// The template at a position from 0, lent, if there are so many.
    pub fn template(&self, position: usize) -> Option<&Template>
        ensures { option_copied result ≡ slice_get self.now.templates position }
    {
        let (_, template) = self.templates.as_slice().get_index(position)?;
        Some(template)
    }

    /// Enters a policy or a template as the last one.
    ///
    /// # Errors
    ///
    /// 204 where a policy or a template of the set has its id, 1 when out of memory. Each hands the statement back and leaves
    /// the set as it was.
    pub fn add(&mut self, statement: Statement) -> Result<(), AddFault>
        ensures ok { OnOk result (self.new ≡ entered self.old statement) }
        ensures duplicate { IfErr result (λ fault. number_of fault ≡ 204 → Contains (ids_in self.old) (id_of statement)) }
        ensures distinct { OnOk result (Contains (ids_in self.old) (id_of statement) → ⊥) }
        ensures unchanged { OnErr result (self.new ≡ self.old) }
        ensures handed_back { IfErr result (λ fault. refused fault ≡ statement) }
    {
        let alloc = *self.policies.allocator();
        let Ok(id) = String::from_str(alloc, statement.id().as_str()) else {
            return Err(AddFault::OutOfMemory(statement));
        };
        if is_taken(&self.policies, id.as_str()) {
            return Err(AddFault::DuplicateId(statement));
        }
        if is_taken(&self.templates, id.as_str()) {
            return Err(AddFault::DuplicateId(statement));
        }
        match statement {
            Statement::Policy(policy) => match put(&mut self.policies, id, policy) {
                Ok(()) => Ok(()),
                Err(failed) => Err(AddFault::OutOfMemory(Statement::Policy(failed.value.1))),
            },
            Statement::Template(template) => match put(&mut self.templates, id, template) {
                Ok(()) => Ok(()),
                Err(failed) => Err(AddFault::OutOfMemory(Statement::Template(failed.value.1))),
            },
        }
    }

    /// Enters a template of the set with its slots replaced, as the policy of this id, as the last one (Cedar language
    /// reference, policy templates).
    ///
    /// # Errors
    ///
    /// Each leaves the set as it was.
    ///
    /// - 1: out of memory.
    /// - 204: a policy or a template of the set has the id.
    /// - 210: no template of the set has the template's id.
    /// - 211: nothing is given for one of the template's slots.
    /// - 212: a uid is given for a slot that the template does not have.
    pub fn link(&mut self, template: &str, id: &str, slots: &Slots) -> Result<(), LinkFault>
        ensures ok { OnOk result (IsLinked self.old self.new template.now id.now slots.now) }
        ensures distinct { OnOk result (Contains (ids_in self.old) id.now → ⊥) }
        ensures duplicate { IfErr result (λ fault. link_fault_number fault ≡ 204 → Contains (ids_in self.old) id.now) }
        ensures no_such_template { IfErr result (λ fault. link_fault_number fault ≡ 210
            → (t : TemplateTree) → IsTemplate self.old template.now t → ⊥) }
        ensures missing { IfErr result (λ fault. link_fault_number fault ≡ 211
            → (t : TemplateTree) × IsTemplate self.old template.now t × HasMissingSlot t slots.now) }
        ensures extra { IfErr result (λ fault. link_fault_number fault ≡ 212
            → (t : TemplateTree) × IsTemplate self.old template.now t × HasExtraSlot t slots.now) }
        ensures unchanged { OnErr result (self.new ≡ self.old) }
    {
        let policy = self.linked(template, id, slots)?;
        self.enter(policy)
    }

    // Enters a policy as the last one.
    fn enter(&mut self, policy: Policy) -> Result<(), LinkFault>
        ensures ok { OnOk result (self.new ≡ entered self.old (PolicyStatement policy)) }
        ensures distinct { OnOk result (Contains (ids_in self.old) policy.id → ⊥) }
        ensures duplicate { IfErr result (λ fault. link_fault_number fault ≡ 204 → Contains (ids_in self.old) policy.id) }
        ensures no_other { IfErr result (λ fault. link_fault_number fault ≤ 204) }
        ensures unchanged { OnErr result (self.new ≡ self.old) }
    {
        self.add(Statement::Policy(policy))?;
        Ok(())
    }

    // The link of a template of the set. It is not entered.
    fn linked(&self, template: &str, id: &str, slots: &Slots) -> Result<Policy, LinkFault>
        ensures ok { IfOk result (IsLinkIn self.now template.now id.now slots.now) }
        ensures no_such_template { IfErr result (λ fault. link_fault_number fault ≡ 210
            → (t : TemplateTree) → IsTemplate self.now template.now t → ⊥) }
        ensures missing { IfErr result (λ fault. link_fault_number fault ≡ 211
            → (t : TemplateTree) × IsTemplate self.now template.now t × HasMissingSlot t slots.now) }
        ensures extra { IfErr result (λ fault. link_fault_number fault ≡ 212
            → (t : TemplateTree) × IsTemplate self.now template.now t × HasExtraSlot t slots.now) }
        ensures not_entered { IfErr result (λ fault. link_fault_number fault ≢ 204) }
    {
        let alloc = *self.policies.allocator();
        let Some(template) = self.templates.get(template) else {
            return Err(LinkFault::NoSuchTemplate);
        };
        if linking::has_extra_slot(template, slots) {
            return Err(LinkFault::ExtraSlot);
        }
        linking::linked(alloc, template, id, slots)?.ok_or(LinkFault::MissingSlot)
    }
}

// Whether the id is taken.
fn is_taken<T>(entries: &IndexMap<String, T>, id: &str) -> bool
    ensures taken { result ≡ true → Contains (keys_of entries.now.entries) id.now }
    ensures free { result ≡ false → Contains (keys_of entries.now.entries) id.now → ⊥ }
    ensures absent { result ≡ false → get_by_text entries.now id.now ≡ None }
{
    entries.contains_key(id)
}

// Puts a value at an id that is free, as the last one.
fn put<T: Drop>(
    entries: &mut IndexMap<String, T>,
    id: String,
    value: T,
) -> Result<(), AllocFailed<(String, T)>>
    requires { get_by_text entries.old (string_bytes id) ≡ None }
    ensures ok { OnOk result (entries.new.entries ≡ entries.old.entries ++ (id, value) ∷ []) }
    ensures unchanged { OnErr result (entries.new.entries ≡ entries.old.entries) }
    ensures handed_back { IfErr result (λ failed. failed.value ≡ (id, value)) }
{
    entries.insert(id, value)?;
    Ok(())
}
