//! The declarations of a schema, entry by entry.
ghost use Rattle.std.specs.Prelude.{◌≡◌, [], MatchResult, OnOk};
ghost use Rattle.cedar_schema_json.specs.Enumerations.{enumeration_of};
ghost use Rattle.cedar_schema_json.specs.Faults.{Told};
ghost use Rattle.cedar_schema_json.specs.declared.form.position.Position.TheVariants.{CommonType};
ghost use Rattle.cedar_schema_json.specs.Reading.{type_read};
ghost use Rattle.cedar_schema_json.specs.FormView.{form_of};
ghost use Rattle.cedar_schema_json.specs.Ends.{AreEnds};
ghost use Rattle.cedar_schema_json.specs.TableView.{table_of};
ghost use Rattle.cedar_schema.specs.Each.{each_faults, each_onto};
ghost use Rattle.cedar_schema_json.specs.EntryView.{entries_view, entry_of};
ghost use Rattle.cedar_schema.specs.Schemas.{add_action, add_entity, add_enumeration, common_faults, entity_faults, enumerated_faults, expansion_faults, forms_of, one_action_faults, scope_at, scope_in};
ghost use Rattle.cedar_schema.specs.Declaring.{action_of, entity_type_of};
ghost use Rattle.cedar_schema.specs.Private.SettingView.{setting_view};

use crate::schema::action::{Action, read_action};
use crate::schema::entity_type::{EntityType, read_entity_type};
use crate::schema::members::uid_of;
use cedar_ext::Language;
use cedar_schema_json::{
    Entry, Enumeration, Form, NameTable, Position, SchemaFault, Scope, Table, check_common_key,
    judge, qualified, read_enumeration, read_type,
};
use cedar_value::{Name, Uid};
use std::alloc::{AllocError, Global};
use std::collections::{BTreeMap, BTreeSet};

/// The language and the declared names and uids: the names of the entity types, the common types as they are written, and the
/// uids of the actions.
#[derive(Clone, Copy)]
pub(crate) struct Setting<'a> {
    pub language: Language,
    pub entities: &'a NameTable,
    pub commons: &'a NameTable,
    pub table: Table<'a>,
    pub uids: &'a BTreeSet<Uid>,
}

/// The common types, as they are written.
pub(crate) fn read_forms(
    alloc: Global,
    language: Language,
    entities: &NameTable,
    commons: &NameTable,
    entries: &[Entry<'_>],
) -> Result<Vec<Form>, SchemaFault>
    ensures { MatchResult result
        (λ v. (each_faults (common_faults language entities.now commons.now) (entries_view entries.now) ≡ [])
        × (table_of v.items ≡ forms_of language entities.now commons.now (entries_view entries.now)))
        (λ e. Told (each_faults (common_faults language entities.now commons.now) (entries_view entries.now)) e) }
{
    let mut forms = Vec::new(alloc);
    for i in 0..entries.len() {
        let form = read_form(alloc, language, entities, commons, entries[i])?;
        forms.push(form)?;
    }
    Ok(forms)
}

fn read_form(
    alloc: Global,
    language: Language,
    entities: &NameTable,
    commons: &NameTable,
    entry: Entry<'_>,
) -> Result<Form, SchemaFault>
    ensures { MatchResult result
        (λ f. (common_faults language entities.now commons.now (entry_of entry.entry) ≡ [])
        × (form_of f ≡ (type_read (scope_at language entities.now commons.now (entry_of entry.entry).namespace) CommonType (entry_of entry.entry).body).form))
        (λ e. Told (common_faults language entities.now commons.now (entry_of entry.entry)) e) }
{
    let scope = Scope {
        language,
        namespace: entry.namespace,
        entities,
        commons,
    };
    check_common_key(alloc, &scope, entry.key)?;
    read_type(alloc, &scope, entry.body, Position::CommonType)
}

/// Refuses a common type that is too large or leads back to itself.
pub(crate) fn judge_forms(table: Table<'_>) -> Result<(), SchemaFault>
    requires { AreEnds (table_of table.forms.now) table.ends.now }
    ensures { MatchResult result
        (λ _. each_faults (expansion_faults (table_of table.entry.forms.now)) (table_of table.entry.forms.now) ≡ [])
        (λ e. Told (each_faults (expansion_faults (table_of table.entry.forms.now)) (table_of table.entry.forms.now)) e) }
{
    for i in 0..table.forms.len() {
        judge(table, &table.forms[i])?;
    }
    Ok(())
}

/// The entity types, under their names.
pub(crate) fn read_entities(
    alloc: Global,
    setting: Setting<'_>,
    entries: &[Entry<'_>],
) -> Result<BTreeMap<Name, EntityType>, SchemaFault>
    requires { AreEnds (table_of setting.table.forms.now) setting.table.ends.now }
    ensures { MatchResult result
        (λ m. (each_faults (entity_faults (setting_view setting.entry)) (entries_view entries.now) ≡ [])
        × (m.entries ≡ each_onto (add_entity (setting_view setting.entry)) [] (entries_view entries.now)))
        (λ e. Told (each_faults (entity_faults (setting_view setting.entry)) (entries_view entries.now)) e) }
{
    let mut found = BTreeMap::new(alloc);
    for i in 0..entries.len() {
        let entry = entries[i];
        let entity = read_entity(alloc, setting, entry)?;
        let name = qualified(alloc, entry.namespace, entry.key)?;
        found.insert(name, entity)?;
    }
    Ok(found)
}

fn read_entity(
    alloc: Global,
    setting: Setting<'_>,
    entry: Entry<'_>,
) -> Result<EntityType, SchemaFault>
    requires { AreEnds (table_of setting.table.forms.now) setting.table.ends.now }
    ensures { MatchResult result
        (λ t. let s = setting_view setting.entry in (entity_faults s (entry_of entry.entry) ≡ []) × (t ≡ entity_type_of (scope_in s (entry_of entry.entry)) s.table (entry_of entry.entry)))
        (λ e. Told (entity_faults (setting_view setting.entry) (entry_of entry.entry)) e) }
{
    let scope = Scope {
        language: setting.language,
        namespace: entry.namespace,
        entities: setting.entities,
        commons: setting.commons,
    };
    read_entity_type(alloc, &scope, setting.table, entry)
}

/// The ids of the enumerated entity types, under the names of the types.
pub(crate) fn read_enumerations(
    alloc: Global,
    entries: &[Entry<'_>],
) -> Result<BTreeMap<Name, Enumeration>, SchemaFault>
    ensures { MatchResult result
        (λ m. (each_faults enumerated_faults (entries_view entries.now) ≡ [])
        × (m.entries ≡ each_onto add_enumeration [] (entries_view entries.now)))
        (λ e. Told (each_faults enumerated_faults (entries_view entries.now)) e) }
{
    let mut found = BTreeMap::new(alloc);
    for i in 0..entries.len() {
        let entry = entries[i];
        let enumeration = read_enumeration(alloc, entry.body)?;
        add_enumeration(alloc, &mut found, entry, enumeration)?;
    }
    Ok(found)
}

fn add_enumeration(
    alloc: Global,
    found: &mut BTreeMap<Name, Enumeration>,
    entry: Entry<'_>,
    enumeration: Option<Enumeration>,
) -> Result<(), AllocError>
    ensures { OnOk result (enumeration ≡ enumeration_of (entry_of entry.entry).body → found.new.entries ≡ add_enumeration found.old.entries (entry_of entry.entry)) }
{
    if let Some(ids) = enumeration {
        let name = qualified(alloc, entry.namespace, entry.key)?;
        found.insert(name, ids)?;
    }
    Ok(())
}

/// The actions, under their uids.
pub(crate) fn read_actions(
    alloc: Global,
    setting: Setting<'_>,
    entries: &[Entry<'_>],
) -> Result<BTreeMap<Uid, Action>, SchemaFault>
    requires { AreEnds (table_of setting.table.forms.now) setting.table.ends.now }
    ensures { MatchResult result
        (λ m. (each_faults (one_action_faults (setting_view setting.entry)) (entries_view entries.now) ≡ [])
        × (m.entries ≡ each_onto (add_action (setting_view setting.entry)) [] (entries_view entries.now)))
        (λ e. Told (each_faults (one_action_faults (setting_view setting.entry)) (entries_view entries.now)) e) }
{
    let mut found = BTreeMap::new(alloc);
    for i in 0..entries.len() {
        let entry = entries[i];
        let action = read_one_action(alloc, setting, entry)?;
        let uid = uid_of(alloc, entry)?;
        found.insert(uid, action)?;
    }
    Ok(found)
}

fn read_one_action(
    alloc: Global,
    setting: Setting<'_>,
    entry: Entry<'_>,
) -> Result<Action, SchemaFault>
    requires { AreEnds (table_of setting.table.forms.now) setting.table.ends.now }
    ensures { MatchResult result
        (λ a. let s = setting_view setting.entry in (one_action_faults s (entry_of entry.entry) ≡ []) × (a ≡ action_of (scope_in s (entry_of entry.entry)) s.table s.uids (entry_of entry.entry)))
        (λ e. Told (one_action_faults (setting_view setting.entry) (entry_of entry.entry)) e) }
{
    let scope = Scope {
        language: setting.language,
        namespace: entry.namespace,
        entities: setting.entities,
        commons: setting.commons,
    };
    read_action(alloc, &scope, setting.table, setting.uids, entry)
}
