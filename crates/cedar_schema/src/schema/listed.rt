//! Whether the types of uids have them: enumerated entity types have the uids of their ids alone.
ghost use Rattle.std.specs.Prelude.{◌≡◌};
ghost use Rattle.cedar_schema_spec.specs.Enumerated.{fields_listed, has_listed, is_listed, members_listed, request_listed};
ghost use Rattle.cedar_value.specs.Datum.{fields_of, members_of};

use crate::schema::Schema;
use cedar_value::{Record, Request, SharedText, Uid, Value, ValueKind};

impl Schema {
    /// Whether the uid's type has it: an enumerated type has the uids of its ids alone, and each other type has any (Cedar
    /// RFC 53). Takes no memory, and as many comparisons as the logarithms of the numbers of enumerated types and of ids.
    pub fn lists_uid(&self, uid: &Uid) -> bool
        ensures { result ≡ is_listed self.now uid.now }
    {
        match self.enumerated.get(&uid.ty) {
            Some(enumeration) => enumeration.has(&uid.id),
            None => true,
        }
    }

    /// Whether the type of each uid in the record has it, at every depth (Cedar RFC 53). Takes no memory. The record is walked
    /// only where the schema has an enumerated type.
    pub fn lists_record(&self, pairs: &Record) -> bool
        ensures { result ≡ fields_listed self.now (fields_of pairs.now) }
    {
        self.enumerated.is_empty() || self.lists_pairs(pairs.pairs())
    }

    /// Whether the types of the principal, the resource and each uid in the context have these (Cedar RFC 53). Takes no memory.
    /// The context is walked only where the schema has an enumerated type.
    pub fn lists_request(&self, request: &Request) -> bool
        ensures { result ≡ request_listed self.now request.now }
    {
        self.lists_uid(&request.principal)
            && self.lists_uid(&request.resource)
            && self.lists_record(&request.context)
    }

    #[cycle(listed)]
    fn lists_value(&self, value: &Value) -> bool
        ensures { result ≡ has_listed self.now value.now }
    {
        match value.kind() {
            ValueKind::Uid(uid) => self.lists_uid(uid),
            ValueKind::Set(set) => self.lists_members(set.members()),
            ValueKind::Record(record) => self.lists_pairs(record.pairs()),
            _ => true,
        }
    }

    #[cycle(listed)]
    fn lists_members(&self, members: &[Value]) -> bool
        ensures { result ≡ members_listed self.now (members_of members.now) }
    {
        let mut rest = members;
        'walk: while let Some((member, others)) = rest.split_first() {
            if !self.lists_value(member) {
                return false;
            }
            rest = others;
        }
        true
    }

    #[cycle(listed)]
    fn lists_pairs(&self, pairs: &[(SharedText, Value)]) -> bool
        ensures { result ≡ fields_listed self.now (fields_of pairs.now) }
    {
        let mut rest = pairs;
        'walk: while let Some((pair, others)) = rest.split_first() {
            if !self.lists_value(&pair.1) {
                return false;
            }
            rest = others;
        }
        true
    }
}
