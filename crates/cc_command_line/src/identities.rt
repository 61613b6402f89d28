//! The text of a file that tells the node of a folder from others: `cluster NAME` on one line, `birth NUMBER` on the next.

ghost use Rattle.std.specs.Prelude.{◌≡◌, ◌<◌, ◌^◌, ℕ, List, [], false, IfOk, MatchOption, MatchResult, bytes_eq};
ghost use Rattle.cc_command_line.specs.Identities.{has_blank, IsLine, NoLine, IsNamed, birth_spelling, identity_spelling, SpellsIdentity};
ghost use Rattle.cc_command_line.specs.Identities.{IsBirthFault, IsIdentityFault, line_at_fault};
ghost use Rattle.cc_command_line.specs.declared.identities.Identity.{Identity as IdentityValue};
ghost use Rattle.cc_command_line.specs.declared.identities.IdentityFault.{IdentityFault as Fault};

use crate::numbers::number;
use cc_connections::ClusterName;
use cc_views::NoMemory;
use itoa::Buffer;
use std::alloc::{AllocError, Global};
use std::fmt;

/// What tells the node of a folder from others: the cluster that it is of, and 64 random bits that the folder got when it was
/// formatted.
#[derive(Clone, Copy)]
pub struct Identity {
    pub cluster: ClusterName,
    pub birth: u64,
}

impl Identity {
    /// That of a folder whose cluster has no name: its birth is 0.
    pub fn nameless() -> Self
        ensures { result ≡ record { cluster = []; birth = 0 } }
    {
        match ClusterName::new(b"") {
            Ok(cluster) => Identity { cluster, birth: 0 },
            Err(_) => unreachable!(),
        }
    }
}

/// Why a text is no identity.
#[derive(Clone, Copy, Debug, PartialEq, Eq)]
pub enum IdentityFault {
    /// Line 1 isn't `cluster NAME`, or doesn't end.
    NoCluster,
    /// Line 2 isn't `birth NUMBER`, or doesn't end.
    NoBirth,
    /// Something stands on line 3.
    More,
}

/// What stands in place of the line that is at fault, behind its number.
impl fmt::Display for IdentityFault {
    fn fmt<W: fmt::Write>(&self, f: &mut fmt::Formatter<W>) -> fmt::Result {
        f.write_str(match self {
            IdentityFault::NoCluster => "line 1 isn't a cluster's name, such as cluster blue",
            IdentityFault::NoBirth => "line 2 isn't a number, such as birth 42",
            IdentityFault::More => "line 3 isn't the end",
        })
    }
}

impl IdentityFault {
    /// The line that is at fault, from 1 on.
    pub fn line(self) -> usize
        ensures { result ≡ line_at_fault self }
    {
        match self {
            IdentityFault::NoCluster => 1,
            IdentityFault::NoBirth => 2,
            IdentityFault::More => 3,
        }
    }
}

/// The identity that a text is: `cluster NAME` with a name of 1 to 64 bytes, and `birth NUMBER` in plain decimal digits, each
/// ended by a newline. Else the fault is that of the first line that is something else.
pub fn identity_in(text: &str) -> Result<Identity, IdentityFault>
    ensures { MatchResult result (λ i. SpellsIdentity text.now i) (λ e. IsIdentityFault text.now e) }
{
    let Some((name, rest)) = line_in("cluster", text) else {
        return Err(IdentityFault::NoCluster);
    };
    let Some(cluster) = cluster_name(name) else {
        return Err(IdentityFault::NoCluster);
    };
    match birth_in(rest) {
        Ok(birth) => Ok(Identity { cluster, birth }),
        Err(fault) => Err(fault),
    }
}

// The birth, where nothing stands behind its line.
fn birth_in(text: &str) -> Result<u64, IdentityFault>
    ensures { MatchResult result (λ n. text.now ≡ birth_spelling n []) (λ e. IsBirthFault text.now e) }
{
    let Some((word, more)) = line_in("birth", text) else {
        return Err(IdentityFault::NoBirth);
    };
    let Some(birth) = number(word) else {
        return Err(IdentityFault::NoBirth);
    };
    if !more.is_empty() {
        return Err(IdentityFault::More);
    }
    Ok(birth)
}

// What stands behind a key on the first line of a text, and what follows that line.
fn line_in<'a>(key: &str, text: &'a str) -> Option<(&'a str, &'a str)>
    requires { has_blank key.now ≡ false }
    ensures { MatchOption result (NoLine key.now text.now) (λ x. IsLine key.now text.now x.0.now x.1.now) }
{
    let (found, behind) = text.split_once(' ')?;
    if !is_key(found, key) {
        return None;
    }
    behind.split_once('\n')
}

fn is_key(found: &str, key: &str) -> bool
    ensures { result ≡ bytes_eq found.now key.now }
{
    found.as_bytes() == key.as_bytes()
}

// The name of a cluster that has one.
fn cluster_name(word: &str) -> Option<ClusterName>
    ensures { MatchOption result (IsNamed word.now → ⊥) (λ name. (name ≡ word.now) × IsNamed word.now) }
{
    if word.is_empty() {
        return None;
    }
    match ClusterName::new(word.as_bytes()) {
        Ok(name) => Some(name),
        Err(_) => None,
    }
}

/// The text of an identity, which `identity_in` reads again where its cluster has a name.
pub fn identity_text(alloc: Global, identity: &Identity) -> Result<Vec<u8>, NoMemory>
    ensures { IfOk result (λ v. v.items ≡ identity_spelling identity.now) }
{
    Ok(spelled(alloc, identity)?)
}

fn spelled(alloc: Global, identity: &Identity) -> Result<Vec<u8>, AllocError>
    ensures { IfOk result (λ v. v.items ≡ identity_spelling identity.now) }
{
    let mut digits = Buffer::new();
    let mut text = Vec::from_slice(alloc, b"cluster ")?;
    text.extend_from_slice(identity.cluster.as_bytes())?;
    text.extend_from_slice(b"\nbirth ")?;
    text.extend_from_slice(digits.format(identity.birth).as_bytes())?;
    text.extend_from_slice(b"\n")?;
    Ok(text)
}

/// An identity whose cluster has a name is the only one that its text spells, and its text has no fault.
pub fn identities_are_read_again()
    ensures one { (a b : IdentityValue) (text : List ℕ) → a.birth < 2 ^ 64 → b.birth < 2 ^ 64 → SpellsIdentity text a → SpellsIdentity text b → a ≡ b }
    ensures none { (a : IdentityValue) (text : List ℕ) (e : Fault) → a.birth < 2 ^ 64 → SpellsIdentity text a → IsIdentityFault text e → ⊥ }
{}
