//! From the JSON of a schema to the schema.
ghost use Rattle.std.specs.Prelude.{◌≡◌, ◌≢◌, [], IfOk, MatchResult};
ghost use Rattle.serde_json.specs.View.{view, members_view};
ghost use Rattle.cedar_schema_json.specs.declared.schema_fault.SchemaFault.TheVariants.{OutOfMemory};
ghost use Rattle.cedar_schema.specs.Denotes.{Denotes, IsRefusedWith};
ghost use Rattle.cedar_schema.specs.Private.Answers.{Answers};
ghost use Rattle.cedar_schema_json.specs.Entries.{whole_names};
ghost use Rattle.cedar_schema_json.specs.EntryView.{entries_view};
ghost use Rattle.cedar_schema_json.specs.Ends.{AreEnds};
ghost use Rattle.cedar_schema.specs.Private.SettingView.{IsSettingOf, setting_view, sections_view};
ghost use Rattle.cedar_schema_json.specs.TableView.{table_of};
ghost use Rattle.cedar_schema.specs.Schemas.{schema_in, schema_of, sections_faults, setting_faults, setting_of, written_faults};

use crate::schema::Schema;
use crate::schema::declarations::{
    Setting, judge_forms, read_actions, read_entities, read_enumerations, read_forms,
};
use crate::schema::members::uids_of;
use cedar_ext::Language;
use cedar_schema_json::{
    Entry, NameTable, SchemaFault, Table, check_spaces, ends_of, entries_of, names_of,
};
use serde_json::{Map, Value};
use std::alloc::{AllocError, Global};

/// The schema that a JSON denotes in a language.
pub(crate) fn read_schema(
    alloc: Global,
    language: Language,
    json: &Value,
) -> Result<Schema, SchemaFault>
    ensures { MatchResult result (Denotes language (view json.now)) (λ e. e ≢ OutOfMemory → IsRefusedWith language (view json.now) e) }
{
    match json.as_object() {
        Some(root) => read_root(alloc, language, root),
        None => Err(SchemaFault::Shape),
    }
}

fn read_root(
    alloc: Global,
    language: Language,
    root: &Map<String, Value>,
) -> Result<Schema, SchemaFault>
    ensures { Answers result (written_faults language (members_view root.now.entries)) (schema_of language (members_view root.now.entries)) }
{
    check_spaces(alloc, language, root)?;
    let commons = entries_of(alloc, root, "commonTypes")?;
    let entities = entries_of(alloc, root, "entityTypes")?;
    let actions = entries_of(alloc, root, "actions")?;
    read_sections(alloc, language, &commons, &entities, &actions)
}

// The schema of the entries of common types, entity types and actions.
fn read_sections(
    alloc: Global,
    language: Language,
    commons: &[Entry<'_>],
    entities: &[Entry<'_>],
    actions: &[Entry<'_>],
) -> Result<Schema, SchemaFault>
    ensures { let x = sections_view commons.now entities.now actions.now in
        Answers result (sections_faults language x) (schema_in (setting_of language x) x.entities x.actions) }
{
    let common_names = name_table(alloc, commons)?;
    let entity_names = name_table(alloc, entities)?;
    let forms = read_forms(alloc, language, &entity_names, &common_names, commons)?;
    let ends = ends_of(alloc, &forms)?;
    let uids = uids_of(alloc, actions)?;
    let setting = Setting {
        language,
        entities: &entity_names,
        commons: &common_names,
        table: Table {
            forms: &forms,
            ends: &ends,
        },
        uids: &uids,
    };
    read_setting(alloc, setting, entities, actions)
}

fn name_table(alloc: Global, entries: &[Entry<'_>]) -> Result<NameTable, AllocError>
    ensures { IfOk result (λ t. t ≡ whole_names (entries_view entries.now)) }
{
    NameTable::new(alloc, names_of(alloc, entries)?)
}

fn read_setting(
    alloc: Global,
    setting: Setting<'_>,
    entities: &[Entry<'_>],
    actions: &[Entry<'_>],
) -> Result<Schema, SchemaFault>
    requires ends { AreEnds (table_of setting.table.forms.now) setting.table.ends.now }
    requires setting { IsSettingOf (setting_view setting) (entries_view entities.now) (entries_view actions.now) }
    ensures { Answers result (setting_faults (setting_view setting.entry) (entries_view entities.now) (entries_view actions.now))
        (schema_in (setting_view setting.entry) (entries_view entities.now) (entries_view actions.now)) }
{
    judge_forms(setting.table)?;
    let entity_types = read_entities(alloc, setting, entities)?;
    let enumerations = read_enumerations(alloc, entities)?;
    let action_types = read_actions(alloc, setting, actions)?;
    Schema::new(alloc, entity_types, action_types, enumerations)
}
