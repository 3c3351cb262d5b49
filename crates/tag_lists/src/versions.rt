//! The versions of a system in a list.

ghost use Rattle.std.specs.Prelude.{◌≡◌, ◌+◌, ◌*◌, ◌<◌, ◌≤◌, ◌^◌, length, IfOk};
ghost use Rattle.std.specs.List.{sum_by};
ghost use Rattle.tags.specs.Tag.{type_of};
ghost use Rattle.tag_lists.specs.declared.shape.Shape.TheVariants.{Short};
ghost use Rattle.tag_lists.specs.Order.{Fits, IsCanonical, shape_of};
ghost use Rattle.tag_lists.specs.Spelling.{spelling};
ghost use Rattle.tag_lists.specs.Versions as spec;

use crate::AuthList;
use crate::shape::is_tag;
use crate::writing::param_size;
use tags::{NoMemory, Param, ParamValue, Tag};

/// A number as a parameter.
fn numbered(tag: Tag, number: u32) -> Param
    requires { shape_of (type_of tag) ≡ Short }
    ensures param { result ≡ spec.numbered tag number }
    ensures fits { Fits result }
{
    Param {
        tag,
        value: ParamValue::Number(number as u64),
    }
}

/// How many bytes a parameter takes that says no version, and none for one that does.
fn size_beside(param: &Param) -> u64
    requires { Fits param.now }
    ensures size { result ≡ spec.size_beside param.now }
    ensures few { result ≤ 65541 }
{
    if is_tag(param.tag, Tag::OsVersion) || is_tag(param.tag, Tag::OsPatchlevel) {
        0
    } else {
        param_size(param)
    }
}

/// How many bytes the parameters take that say no version.
fn sizes_beside(params: &[Param]) -> u64
    requires { IsCanonical params.now }
    ensures size { result ≡ sum_by spec.size_beside params.now }
    ensures few { result ≤ 65541 * 65535 }
{
    let mut size = 0;
    'params: for param in params {
        size += size_beside(param);
    }
    size
}

impl AuthList {
    /// The number of the tag's first parameter, for a tag of 32 bits; 0 where the tag is not there. It takes no memory.
    pub fn version(&self, tag: Tag) -> u32
        requires { shape_of (type_of tag) ≡ Short }
        ensures { result ≡ spec.version_of tag self.now }
    {
        let _params = self.params();
        self.number(tag).unwrap_or(0) as u32
    }

    /// Whether neither OS_VERSION nor OS_PATCHLEVEL is greater than the system's. It takes no memory.
    pub fn is_no_newer(&self, os: u32, patch: u32) -> bool
        ensures { result ≡ spec.is_no_newer os patch self.now }
    {
        self.version(Tag::OsVersion) <= os && self.version(Tag::OsPatchlevel) <= patch
    }

    /// Whether neither OS_VERSION nor OS_PATCHLEVEL is less than the system's. It takes no memory.
    pub fn is_no_older(&self, os: u32, patch: u32) -> bool
        ensures { result ≡ spec.is_no_older os patch self.now }
    {
        os <= self.version(Tag::OsVersion) && patch <= self.version(Tag::OsPatchlevel)
    }

    /// The list with these versions in place of its own.
    pub fn with_versions(self, os: u32, patch: u32) -> Result<AuthList, NoMemory>
        requires room { length self < 65534 }
        ensures list { IfOk result (λ list. list ≡ spec.with_versions os patch self) }
        ensures small { IfOk result (λ list. length (spelling list) ≤ length (spelling self) + 16) }
    {
        let list = self.with(numbered(Tag::OsVersion, os))?;
        list.with(numbered(Tag::OsPatchlevel, patch))
    }

    /// How many bytes the spelling of the list has with these versions: as many as it has, and eight for each that is not
    /// there. It takes no memory.
    pub fn size_with_versions(&self, os: u32, patch: u32) -> u64
        ensures size { result ≡ length (spelling (spec.with_versions os patch self.now)) }
        ensures few { 2 + 5 * length self.now ≤ result }
        ensures most { result < 2 ^ 33 }
    {
        let versions = param_size(&numbered(Tag::OsVersion, os))
            + param_size(&numbered(Tag::OsPatchlevel, patch));
        2 + versions + sizes_beside(self.params())
    }
}
