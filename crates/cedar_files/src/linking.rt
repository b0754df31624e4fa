//! Reads the links from their file, and enters them after the policies.
ghost use Rattle.std.specs.Prelude.{◌≡◌, ◌≢◌, None, Some, IfErr, IfSome, IsErrOf, OnOk};
ghost use Rattle.cedar_ast.specs.LinkFault.{number_of};
ghost use Rattle.cedar_files.specs.LinksFile.{AreLinked, HasEntered, HasLinkFault, HaveLinkFault, HoldsLinked, HoldsNoLinks};
ghost use Rattle.cedar_files.specs.Unread.{IfRefused};

use crate::files::{Files, Role};
use crate::reading::{OUT_OF_MEMORY, Unread, read_file, refusal_of};
use crate::refusal::FileRefusal;
use cedar_ast::{Link, LinkFault, PolicySet};
use cedar_conform::read_links;
use std::alloc::Global;

// Enters a link as the last policy. A refusal leaves the set as it was.
fn enter(policies: &mut PolicySet, link: &Link) -> Result<(), LinkFault>
    ensures ok { OnOk result (HasEntered policies.old link.now policies.new) }
    ensures refused { IfErr result (λ fault. number_of fault ≢ 1 → HasLinkFault policies.old link.now (number_of fault)) }
{
    policies.link(link.template.as_str(), link.id.as_str(), &link.slots)
}

// Enters the links in their order, up to the first that is refused.
fn enter_each(policies: &mut PolicySet, links: &[Link]) -> Result<(), LinkFault>
    ensures ok { OnOk result (AreLinked policies.old links.now policies.new) }
    ensures refused { IfErr result (λ fault. number_of fault ≢ 1 → HaveLinkFault policies.old links.now (number_of fault)) }
{
    let mut rest = links;
    'walk: while let Some((link, others)) = rest.split_first() {
        enter(policies, link)?;
        rest = others;
    }
    Ok(())
}

// Why a link is refused.
fn refusal_of_link(fault: LinkFault) -> Unread
    ensures refused { IfRefused result (λ refusal. (number_of fault ≢ 1) × (refusal ≡ record { number = number_of fault; offset = None })) }
    ensures others { (result ≢ Unread.Unnamed) × (result ≢ Unread.Device) }
{
    match fault.number() {
        OUT_OF_MEMORY => Unread::Memory,
        number => Unread::Refused(FileRefusal::whole(number)),
    }
}

// Enters the links that the bytes denote.
fn enter_read(alloc: Global, bytes: &[u8], policies: &mut PolicySet) -> Result<(), Unread>
    ensures found { OnOk result (HoldsLinked (Some bytes.now) policies.old policies.new) }
    ensures refused { IfErr result (λ unread. IfRefused unread (HoldsNoLinks (Some bytes.now) policies.old)) }
    ensures others { IfErr result (λ unread. (unread ≢ Unread.Unnamed) × (unread ≢ Unread.Device)) }
{
    let links = match read_links(alloc, bytes) {
        Ok(links) => links,
        Err(fault) => return Err(refusal_of(&fault)),
    };
    enter_links_of(policies, &links)
}

/// Enters links after the policies, in their order.
///
/// # Errors
///
/// `Refused` at the first link that is refused (204, 210 to 212), with no place. Otherwise `Memory`. After an error the set may hold
/// some of the links, so do not use it.
pub(crate) fn enter_links_of(policies: &mut PolicySet, links: &[Link]) -> Result<(), Unread>
    ensures found { OnOk result (AreLinked policies.old links.now policies.new) }
    ensures refused { IfErr result (λ unread. IfRefused unread (λ refusal.
        HaveLinkFault policies.old links.now refusal.number × (refusal.offset ≡ None))) }
    ensures others { IfErr result (λ unread. (unread ≢ Unread.Unnamed) × (unread ≢ Unread.Device)) }
{
    match enter_each(policies, links) {
        Ok(()) => Ok(()),
        Err(fault) => Err(refusal_of_link(fault)),
    }
}

/// Enters the links of the links file after the policies, in their order. Where the command line names no links file, the set
/// stays as it is.
///
/// # Errors
///
/// `Refused` where the file's bytes denote no links (501, 502), or at the first link that is refused (204, 210 to 212), with no
/// place. Otherwise `Device` or `Memory`, never `Unnamed`. After an error the set may hold some of the links, so do not use it.
pub fn enter_links<F: Files>(
    alloc: Global,
    files: &F,
    policies: &mut PolicySet,
) -> Result<(), Unread>
    ensures found { OnOk result (IfSome (F.holds files.now Role.Links) (λ held. HoldsLinked held policies.old policies.new)) }
    ensures refused { IfErr result (λ unread. IfRefused unread (λ refusal.
        IfSome (F.holds files.now Role.Links) (λ held. HoldsNoLinks held policies.old refusal))) }
    ensures unnamed { IsErrOf result Unread.Unnamed → ⊥ }
    ensures device { IsErrOf result Unread.Device → F.holds files.now Role.Links ≡ None }
{
    match read_file(alloc, files, Role::Links) {
        Ok(bytes) => enter_read(alloc, &bytes, policies),
        Err(Unread::Unnamed) => Ok(()),
        Err(unread) => Err(unread),
    }
}
