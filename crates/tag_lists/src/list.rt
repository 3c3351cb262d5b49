//! An authorization list, and what it says of a tag.

ghost use Rattle.std.specs.Prelude.{◌≡◌, ℕ, ◌+◌, ◌*◌, ◌<◌, ◌≤◌, List, [], length, drop, IfOk, IfSome, Ok};
ghost use Rattle.std.specs.Option.{option_copied};
ghost use Rattle.std.specs.List.{list_all, list_any};
ghost use Rattle.tags.specs.declared.param.Param.{Param};
ghost use Rattle.tags.specs.Param.{as_number};
ghost use Rattle.tags.specs.Values as values;
ghost use Rattle.tags.specs.Values.{passes};
ghost use Rattle.tag_lists.specs.Order.{Fits, IsCanonical, MayBeListed, canonical, with_param};
ghost use Rattle.tag_lists.specs.Spelling.{spelled, spelling, IsListOf};
ghost use Rattle.tag_lists.specs.Reading.{Gives, listed};
ghost use Rattle.tag_lists.specs.Lookups as spec;

use crate::fault::ListFault;
use crate::shape::{is_tag, rank};
use crate::{reading, writing};
use std::alloc::Global;
use std::marker::Model;
use tags::values::{AES, HMAC, one_in};
use tags::{Bytes, NoMemory, Param, ParamValue, Tag};

/// An authorization list: at most 65,535 parameters of at most 65,535 bytes each, in canonical order, that is by the
/// tag's 28 low bits and then by value, an equal pair once. Only tags of a REP type repeat.
#[derive(Debug, Drop)]
pub struct AuthList {
    params: Vec<Param>,
}

impl Model for AuthList {
    ghost use Rattle.std.specs.Prelude.{List};
    ghost use Rattle.tags.specs.declared.param.Param.{Param};
    ghost use Rattle.tag_lists.specs.Order.{IsCanonical};

    ghost Value = { List Param };

    ghost view = { λ list. list.params.items };

    ghost invariant = { λ list. IsCanonical list.params.items };
}

/// Whether a value is this number.
fn is_number(number: u64, value: &ParamValue) -> bool
    ensures { result ≡ spec.is_number number value.now }
{
    match value {
        ParamValue::Number(own) => *own == number,
        ParamValue::Flag => false,
        ParamValue::Raw(_) => false,
    }
}

/// The parameters from a place on.
fn behind(params: &[Param], place: usize) -> &[Param]
    requires { place ≤ length params.now }
    ensures { result.now ≡ drop place params.now }
{
    &params[place..]
}

/// The parameters of a tag, which stand side by side.
fn of_tag(params: &[Param], tag: Tag) -> &[Param]
    requires { IsCanonical params.now }
    ensures { result.now ≡ spec.all_of tag params.now }
{
    let low = tag.low();
    let from = params.partition_point(|param| param.tag.low() < low);
    let rest = behind(params, from);
    let count = rest.partition_point(|param| param.tag.low() <= low);
    &rest[..count]
}

/// Whether a parameter has this number.
fn any_number(params: &[Param], number: u64) -> bool
    ensures { result ≡ list_any (λ p. spec.is_number number p.value) params.now }
{
    params.iter().any(|param| is_number(number, &param.value))
}

/// The number of the one parameter.
fn number_alone(params: &[Param]) -> Option<u64>
    ensures { result ≡ spec.number_alone params.now }
{
    match params {
        [param] => param.value.as_number(),
        _ => None,
    }
}

/// Whether there is a number, and it is one of these.
fn is_one_in(numbers: &[u64], number: Option<u64>) -> bool
    ensures { result ≡ passes (values.one_in numbers.now) number }
{
    match number {
        Some(number) => one_in(numbers, number),
        None => false,
    }
}

/// Whether each parameter has one of these numbers.
fn all_in(params: &[Param], numbers: &[u64]) -> bool
    ensures { result ≡ list_all (λ p. passes (values.one_in numbers.now) (as_number p.value)) params.now }
{
    params
        .iter()
        .all(|param| is_one_in(numbers, param.value.as_number()))
}

/// The list that the bytes spell.
fn list_of(alloc: Global, bytes: &[u8]) -> Result<AuthList, ListFault>
    ensures { Gives (λ list. list) result (listed bytes.now) }
{
    Ok(AuthList {
        params: reading::listed(alloc, bytes)?,
    })
}

impl AuthList {
    /// The list of no parameters. It takes no memory.
    pub fn empty(alloc: Global) -> AuthList
        ensures { result ≡ [] }
    {
        AuthList {
            params: Vec::new(alloc),
        }
    }

    /// The list that the bytes spell, in any order. The format is two bytes of count, and for each parameter four bytes
    /// of tag and its value: four bytes of ENUM, ENUM_REP, UINT and UINT_REP, eight of ULONG, ULONG_REP and DATE, the
    /// byte 01 of BOOL, and two bytes of length and the bytes of BYTES. Numbers are big-endian.
    ///
    /// The fault of least offset is given; of several at one offset the first of `UnknownTag`, `WrongKind`, `Repeated`
    /// and `Truncated`. `Memory` comes where memory is wanted.
    pub fn read(alloc: Global, bytes: &[u8]) -> Result<AuthList, ListFault>
        // What is read is spelled so, in some order.
        ensures found { IfOk result (λ list. IsListOf bytes.now list) }
        ensures canonical { IfOk result (λ list. IsCanonical list) }

        // Each parameter takes five bytes at least.
        ensures few { IfOk result (λ list. 2 + 5 * length list ≤ length bytes.now) }

        // The canonical spelling has no more bytes.
        ensures small { IfOk result (λ list. length (spelling list) ≤ length bytes.now) }

        // What is spelled so is read.
        ensures only { (order : List Param) → length order ≤ 65535 → MayBeListed order → bytes.now ≡ spelling order → Gives (λ list. list) result (Ok (canonical order)) }

        // Which list, and which fault it is.
        ensures exact { Gives (λ list. list) result (listed bytes.now) }
    {
        list_of(alloc, bytes)
    }

    /// The one canonical spelling of the list, which reads as this list again.
    pub fn write(&self, alloc: Global) -> Result<Bytes, NoMemory>
        ensures spells { IfOk result (λ bytes. bytes ≡ spelling self.now) }
        ensures again { IfOk result (λ bytes. listed bytes ≡ Ok self.now) }
    {
        Ok(Bytes::of(writing::spelling(alloc, &self.params)?))
    }

    /// The parameters. It takes no memory.
    pub fn params(&self) -> &[Param]
        ensures params { result.now ≡ self.now }
        ensures canonical { IsCanonical self.now }
    {
        &self.params
    }

    /// The first parameter of the tag, and the only one where its type is not a REP type. It takes no memory.
    pub fn one(&self, tag: Tag) -> Option<&Param>
        ensures { option_copied result ≡ spec.one_of tag self.now }
    {
        of_tag(&self.params, tag).first()
    }

    /// The parameters of the tag, by value. It takes no memory.
    pub fn all(&self, tag: Tag) -> &[Param]
        ensures { result.now ≡ spec.all_of tag self.now }
    {
        of_tag(&self.params, tag)
    }

    /// Whether a parameter of the tag has this number. It takes no memory.
    pub fn has(&self, tag: Tag, value: u64) -> bool
        ensures { result ≡ spec.has_number tag value self.now }
    {
        any_number(of_tag(&self.params, tag), value)
    }

    /// The list without the parameters of the tag. It takes no memory.
    pub fn without(self, tag: Tag) -> AuthList
        ensures list { result ≡ spec.without tag self }
        ensures len { length result ≤ length self }
        ensures small { length (spelling result) ≤ length (spelling self) }
    {
        let AuthList { mut params } = self;
        params.retain(|param| !is_tag(param.tag, tag));
        AuthList { params }
    }

    /// The list with this parameter in place of those of its tag.
    pub fn with(self, param: Param) -> Result<AuthList, NoMemory>
        requires fits { Fits param }
        requires room { length self < 65535 }
        ensures list { IfOk result (λ list. list ≡ with_param param (spec.without param.tag self)) }
        ensures len { IfOk result (λ list. length list ≤ length self + 1) }
        ensures small { IfOk result (λ list. length (spelling list) ≤ length (spelling self) + length (spelled param)) }
    {
        let AuthList { mut params } = self.without(param.tag);
        let own = rank(&param);
        let place = params.partition_point(|other| rank(other) < own);
        params.insert(place, param)?;
        Ok(AuthList { params })
    }

    /// Whether a parameter of the tag stands in the list. It takes no memory.
    pub fn stands(&self, tag: Tag) -> bool
        ensures { result ≡ spec.stands tag self.now }
    {
        self.one(tag).is_some()
    }

    /// The number of the tag's first parameter. It takes no memory.
    pub fn number(&self, tag: Tag) -> Option<u64>
        ensures { result ≡ spec.number_of tag self.now }
    {
        match self.one(tag) {
            Some(param) => param.value.as_number(),
            None => None,
        }
    }

    /// The bytes of the tag's first parameter. It takes no memory.
    pub fn bytes(&self, tag: Tag) -> Option<&[u8]>
        ensures bytes { option_copied result ≡ spec.bytes_of tag self.now }
        ensures short { IfSome (option_copied result) (λ bytes. length bytes ≤ 65535) }
    {
        let _params = self.params();
        match self.one(tag) {
            Some(param) => param.value.as_bytes(),
            None => None,
        }
    }

    /// The number of the tag's parameter, where there is exactly one. It takes no memory.
    pub fn only_number(&self, tag: Tag) -> Option<u64>
        ensures { result ≡ spec.only_number tag self.now }
    {
        number_alone(self.all(tag))
    }

    /// Whether the tag stands exactly once, with this number. It takes no memory.
    pub fn is_only(&self, tag: Tag, number: u64) -> bool
        ensures { result ≡ spec.is_only tag number self.now }
    {
        match self.only_number(tag) {
            Some(own) => own == number,
            None => false,
        }
    }

    /// Whether each parameter of the tag has one of these numbers. It takes no memory.
    pub fn each_in(&self, tag: Tag, numbers: &[u64]) -> bool
        ensures { result ≡ spec.each tag (values.one_in numbers.now) self.now }
    {
        all_in(self.all(tag), numbers)
    }

    /// Whether it is the list of an AES key. It takes no memory.
    pub fn is_aes(&self) -> bool
        ensures { result ≡ spec.is_aes self.now }
    {
        self.has(Tag::Algorithm, AES)
    }

    /// Whether it is the list of an HMAC key. It takes no memory.
    pub fn is_hmac(&self) -> bool
        ensures { result ≡ spec.is_hmac self.now }
    {
        self.has(Tag::Algorithm, HMAC)
    }
}
