//! The CMap that leads from codes to CIDs.

ghost use Rattle.std.specs.Prelude.{◌≡◌, ◌≤◌, ◌<◌, ℕ, All, length, IfOk, IfErr, slice_index_or, replicate, None};
ghost use Rattle.subsetter_base.specs.declared.error.Error.TheVariants.{OutOfMemory};
ghost use Rattle.pdf_text.specs.Cmaps.CmapName.{name_of_codes, named_text};
ghost use Rattle.pdf_text.specs.Cmaps.Encoding.{IsPair};
ghost use Rattle.pdf_text.specs.View.{pair_view, pairs_view};
ghost use Rattle.pdf_codes.specs.Cmaps.Leading.{are_cids, cid_in, cid_of, limit, pairs_of_codes, pairs_with, table_pairs};

use pdf_text::{CidOfCode, NamedCmap, write_named_encoding};
use std::alloc::Global;
use subsetter_base::Error;

/// One more than the greatest code.
fn limit_of(pairs: &[CidOfCode]) -> usize
    ensures exact { result ≡ limit (pairs_view pairs.now) }
    ensures small { result ≤ 65536 }
{
    let mut limit = 0;
    for pair in pairs {
        limit = limit.max(usize::from(pair.code) + 1);
    }
    limit
}

/// A table in which no code has a CID.
fn no_cids(alloc: Global, count: usize) -> Result<Vec<Option<u16>>, Error>
    ensures ok { IfOk result (λ cids. cids.items ≡ replicate count None) }
    ensures err { IfErr result (λ e. e ≡ OutOfMemory) }
{
    let mut cids = Vec::with_capacity(alloc, count)?;
    for place in 0..count {
        cids.push(None)?;
    }
    Ok(cids)
}

/// The CID of each code below a limit.
#[tactic(auto, using(crate::proofs::CmapsLaws::LeadingSteps::cid_written, crate::proofs::CmapsLaws::LeadingSteps::cid_kept, crate::proofs::CmapsLaws::LeadingSteps::cid_begun, crate::proofs::CmapsLaws::LeadingSteps::cid_done))]
fn first_cids(alloc: Global, pairs: &[CidOfCode], bound: usize) -> Result<Vec<Option<u16>>, Error>
    requires { bound ≡ limit (pairs_view pairs.now) }
    ensures len { IfOk result (λ cids. length cids.items ≡ bound) }
    ensures ok { IfOk result (λ cids. (k : ℕ) → k < bound → slice_index_or cids.items k None ≡ cid_of (pairs_view pairs.now) k) }
    ensures err { IfErr result (λ e. e ≡ OutOfMemory) }
{
    let mut cids = no_cids(alloc, bound)?;
    for pair in pairs {
        let code = usize::from(pair.code);
        if cids[code].is_none() {
            cids[code] = Some(pair.cid);
        }
    }
    Ok(cids)
}

/// A code with its CID.
fn pair_of(code: usize, cid: u16) -> CidOfCode
    requires { code < 65536 }
    ensures pair { pair_view result ≡ record { code = code; cid = cid } }
    ensures is_pair { IsPair (pair_view result) }
{
    CidOfCode {
        code: code as u16,
        cid,
    }
}

/// The pairs of a table, which has at most 65,536 codes.
#[tactic(auto, using(crate::proofs::CmapsLaws::LeadingSteps::pair_added))]
fn pairs_in(alloc: Global, cids: &[Option<u16>]) -> Result<Vec<CidOfCode>, Error>
    requires { length cids.now ≤ 65536 }
    ensures ok { IfOk result (λ pairs. pairs_view pairs.items ≡ table_pairs 0 cids.now) }
    ensures are_pairs { IfOk result (λ pairs. All IsPair (pairs_view pairs.items)) }
    ensures err { IfErr result (λ e. e ≡ OutOfMemory) }
{
    let mut pairs = Vec::new(alloc);
    for place in 0..cids.len() {
        if let Some(cid) = cids[place] {
            pairs.push(pair_of(place, cid))?;
        }
    }
    Ok(pairs)
}

/// Each code with its CID, and code 0 with CID 0.
#[tactic(auto, using(crate::proofs::CmapsLaws::LeadingSteps::zipped_end))]
pub fn pairs_with(alloc: Global, codes: &[u16], cids: &[u16]) -> Result<Vec<CidOfCode>, Error>
    ensures ok { IfOk result (λ pairs. pairs_view pairs.items ≡ pairs_with codes.now cids.now) }
    ensures err { IfErr result (λ e. e ≡ OutOfMemory) }
{
    let mut pairs = Vec::with_capacity(alloc, codes.len().saturating_add(1))?;
    pairs.push(CidOfCode { code: 0, cid: 0 })?;
    for place in 0..codes.len().min(cids.len()) {
        pairs.push(CidOfCode {
            code: codes[place],
            cid: cids[place],
        })?;
    }
    Ok(pairs)
}

/// Whether each code is its CID.
pub fn are_cids(pairs: &[CidOfCode]) -> bool
    ensures { result ≡ are_cids (pairs_view pairs.now) }
{
    for pair in pairs {
        if pair.code != pair.cid {
            return false;
        }
    }
    true
}

/// A pair for each code, in ascending order.
#[tactic(auto, using(crate::proofs::CmapsLaws::LeadingSteps::pairs_are))]
fn ascending(alloc: Global, pairs: &[CidOfCode]) -> Result<Vec<CidOfCode>, Error>
    ensures ok { IfOk result (λ v. pairs_view v.items ≡ pairs_of_codes (pairs_view pairs.now)) }
    ensures are_pairs { IfOk result (λ v. All IsPair (pairs_view v.items)) }
    ensures err { IfErr result (λ e. e ≡ OutOfMemory) }
{
    let cids = first_cids(alloc, pairs, limit_of(pairs))?;
    pairs_in(alloc, &cids)
}

/// The CMap of codes and their CIDs, each code once, in ascending order.
pub fn write_leading(alloc: Global, vertical: bool, pairs: &[CidOfCode]) -> Result<NamedCmap, Error>
    ensures name { IfOk result (λ c. c.name.items ≡ name_of_codes vertical (pairs_of_codes (pairs_view pairs.now))) }
    ensures text { IfOk result (λ c. c.text.items ≡ named_text vertical (pairs_of_codes (pairs_view pairs.now))) }
    // The CMap is read: each code leads to its CID.
    ensures read { IfOk result (λ c. (k : ℕ) → cid_in c.text.items k ≡ cid_of (pairs_view pairs.now) k) }
    ensures err { IfErr result (λ e. e ≡ OutOfMemory) }
{
    let written = ascending(alloc, pairs)?;
    write_named_encoding(alloc, vertical, written.as_slice())
}
