//! What the first line of an input says of nodes, sites and parties.

use crate::nearest::Nearest;
use crate::showing::show_text;
use ocpi_types::{Evse, Node, Setup, Site, SiteLine};
use std::alloc::{AllocError, Global};

/// The most names that are listed.
const MOST_LISTED: usize = 10;

/// What the first line says.
#[derive(Drop)]
pub enum Known {
    /// None was read yet, or it was refused.
    Nothing,
    /// The site line of `answer`.
    Site(SiteLine),
    /// The setup of `play` and `node`.
    Setup(Setup),
}

/// Which nodes are meant.
#[derive(Clone, Copy, PartialEq, Eq)]
pub enum Role {
    Operator,
    Provider,
    Any,
}

impl Role {
    fn has(self, node: &Node) -> bool {
        match node {
            Node::Operator { .. } => self != Role::Provider,
            Node::Provider { .. } => self != Role::Operator,
        }
    }
}

/// Names that are written one behind the other, the first ones of many, and the one that may be meant.
#[derive(Clone, Copy)]
struct Listing<'t> {
    count: usize,
    nearest: Nearest<'t>,
}

impl<'t> Listing<'t> {
    fn new(sought: &str) -> Listing<'t> {
        Listing {
            count: 0,
            nearest: Nearest::new(sought),
        }
    }

    /// Adds a name behind the others.
    fn add(
        &mut self,
        alloc: Global,
        sought: &str,
        name: &'t str,
        output: &mut String,
    ) -> Result<(), AllocError> {
        self.nearest.offer(alloc, sought, name)?;
        if self.count < MOST_LISTED {
            output.push_str(if self.count == 0 { "" } else { ", " })?;
            output.push_str(name)?;
        } else if self.count == MOST_LISTED {
            output.push_str(" ..")?;
        }
        self.count = self.count.saturating_add(1);
        Ok(())
    }

    /// Adds a question about the name that may be meant.
    fn end(self, output: &mut String) -> Result<(), AllocError> {
        if let Some(name) = self.nearest.text {
            write!(output, ". Is {name} meant?")?;
        }
        Ok(())
    }
}

/// The node of a party, in any case.
pub fn node_of<'s>(setup: &'s Setup, party: &str) -> Option<&'s Node> {
    setup
        .as_slice()
        .iter()
        .find(|node| node.party().as_str().eq_ignore_ascii_case(party))
}

/// The site of a party's node, where that is an operator.
pub fn site_of<'s>(setup: &'s Setup, party: &str) -> Option<&'s Site> {
    match node_of(setup, party) {
        Some(Node::Operator { site, .. }) => Some(site),
        _ => None,
    }
}

/// The EVSE of a site by its uid, in any case.
pub fn evse_of<'s>(site: &'s Site, uid: &str) -> Option<&'s Evse> {
    for location in site.locations.as_slice() {
        for evse in location.evses.as_slice() {
            if evse.uid.as_str().eq_ignore_ascii_case(uid) {
                return Some(evse);
            }
        }
    }
    None
}

/// Adds which parties of that role the setup has.
pub fn list_parties(
    alloc: Global,
    setup: &Setup,
    role: Role,
    sought: &str,
    output: &mut String,
) -> Result<(), AllocError> {
    let mut listing = Listing::new(sought);
    for node in setup.as_slice() {
        if role.has(node) {
            listing.add(alloc, sought, node.party().as_str(), output)?;
        }
    }
    listing.end(output)
}

/// Adds which providers a site line has.
pub fn list_providers(
    alloc: Global,
    line: &SiteLine,
    sought: &str,
    output: &mut String,
) -> Result<(), AllocError> {
    let mut listing = Listing::new(sought);
    for provider in line.parties.providers() {
        listing.add(alloc, sought, provider.as_str(), output)?;
    }
    listing.end(output)
}

/// Adds which EVSEs a site has.
pub fn list_evses(
    alloc: Global,
    site: &Site,
    sought: &str,
    output: &mut String,
) -> Result<(), AllocError> {
    let mut listing = Listing::new(sought);
    for location in site.locations.as_slice() {
        for evse in location.evses.as_slice() {
            listing.add(alloc, sought, evse.uid.as_str(), output)?;
        }
    }
    listing.end(output)
}

/// Adds which connectors an EVSE has.
pub fn list_connectors(
    alloc: Global,
    evse: &Evse,
    sought: &str,
    output: &mut String,
) -> Result<(), AllocError> {
    let mut listing = Listing::new(sought);
    for connector in evse.connectors.as_slice() {
        listing.add(alloc, sought, connector.id.as_str(), output)?;
    }
    listing.end(output)
}

/// Adds a name, what was found under it, and the begin of what is wanted.
pub fn show_found(
    name: &str,
    found: &str,
    wanted: &str,
    output: &mut String,
) -> Result<(), AllocError> {
    write!(output, "{name}: found ")?;
    show_text(found, output)?;
    write!(output, "; wanted {wanted}")
}
