ghost use Rattle.std.specs.Prelude.{◌≡◌, ◌||◌, ◌+◌, ◌++◌, ◌<◌, ◌≤◌, ◌^◌, IfSome, IfNone, IsTrue, [], Option};
ghost use Rattle.std.specs.Prelude.{length};
ghost use Rattle.std.specs.List.{flat_map};
ghost use Rattle.std.specs.Option.{option_copied, option_to_list};
ghost use Rattle.lwc_base.specs.Frames.{own_value, tag_of};
ghost use Rattle.lwc_types.specs.declared.page.PageValue.{PageValue};
ghost use Rattle.whole_world.specs.Tags.{different, has_tag, page_tags, row_tags, rows_count, rows_tags};
ghost use Rattle.whole_world.specs.Tags.{times};

use crate::context_row::ContextRow;
use crate::group_row::GroupRow;
use crate::world::WholeWorld;
use lwc_base::{Cell, Name, PageNumber, PageValue, Tag};

/// The tag of a page's value, if it has one.
fn tag_of(value: Option<&PageValue>) -> Option<Tag>
    ensures { option_to_list result ≡ tag_of (option_copied value.entry) }
{
    match value {
        Some(PageValue::Data(tag, _)) => Some(*tag),
        _ => None,
    }
}

/// A page of a row, which may be the holder of a value.
trait Page: Sized {
    ghost value: { Self → Option PageValue };

    /// The value that it is the holder of.
    fn value(&self) -> Option<&PageValue>
        ensures { option_copied result ≡ value self.now };
}

impl Page for Cell<Option<PageValue>> {
    ghost value = { own_value };

    fn value(&self) -> Option<&PageValue> {
        match self {
            Cell::Own(value) => value.as_ref(),
            Cell::Common(_) => None,
        }
    }
}

impl Page for Option<PageValue> {
    ghost value = { λ value. value };

    fn value(&self) -> Option<&PageValue> {
        self.as_ref()
    }
}

/// Whether a page is the holder of a value with this tag.
#[tactic(auto, unfolding(crate::specs::Tags::has_tag))]
fn page_has<P: Page>(page: &P, tag: Tag) -> bool
    ensures { result ≡ has_tag tag (tag_of (P.value page.now)) }
{
    match tag_of(page.value()) {
        Some(own) => own == tag,
        None => false,
    }
}

/// Whether a tag is in some pages.
fn has_tag<P: Page>(pages: &[P], tag: Tag) -> bool
    ensures { result ≡ has_tag tag (page_tags P.value pages.now) }
{
    pages.iter().any(|page| page_has(page, tag))
}

/// How many times a tag is in some pages.
#[tactic(auto, using(crate::proofs::TagLists::times_pages))]
fn count_tag<P: Page>(pages: &[P], tag: Tag) -> usize
    ensures { result ≡ times tag (page_tags P.value pages.now) }
{
    pages.iter().filter(|page| page_has(*page, tag)).count()
}

/// The number of different tags of some pages that are not in later rows.
fn count_new_tags<P: Page>(pages: &[P], later: Rows) -> usize
    requires { length (page_tags P.value pages.now) < 2 ^ 32 }
    ensures { result + different (rows_tags later.entry)
        ≡ different (page_tags P.value pages.now ++ rows_tags later.entry) }
{
    let mut count = 0;
    let mut rest = pages;
    while let Some((first, after)) = rest.split_first() {
        count += count_new_tag(tag_of(first.value()), after, later);
        rest = after;
    }
    count
}

/// 1 if there is a tag that is in none of the pages and rows that follow, and else 0.
fn count_new_tag<P: Page>(tag: Option<Tag>, pages: &[P], later: Rows) -> usize
    ensures { result + different (page_tags P.value pages.now ++ rows_tags later.entry)
        ≡ different (option_to_list tag ++ (page_tags P.value pages.now ++ rows_tags later.entry)) }
{
    match tag {
        Some(tag) => usize::from(!follows(tag, pages, later)),
        None => 0,
    }
}

/// Whether a tag is in some pages or in later rows.
fn follows<P: Page>(tag: Tag, pages: &[P], later: Rows) -> bool
    ensures { result ≡ (has_tag tag (page_tags P.value pages.now) || has_tag tag (rows_tags later.entry)) }
{
    has_tag(pages, tag) || later.has(tag)
}

/// A row of a context or of a group.
#[derive(Clone, Copy)]
enum Row<'a> {
    Context(&'a (Name, ContextRow)),
    Group(&'a (Name, GroupRow)),
}

impl Row<'_> {
    /// How many times a tag is in the row.
    fn count(self, tag: Tag) -> usize
        ensures { result ≡ times tag (row_tags self.entry) }
    {
        match self {
            Row::Context(row) => count_tag(row.1.pages.as_slice(), tag),
            Row::Group(row) => count_tag(row.1.pages.as_slice(), tag),
        }
    }

    /// The number of different tags of the row that are not in later rows.
    fn count_new(self, later: Rows) -> usize
        requires { length (row_tags self) < 2 ^ 32 }
        ensures { result + different (rows_tags later.entry)
            ≡ different (row_tags self.entry ++ rows_tags later.entry) }
    {
        match self {
            Row::Context(row) => count_new_tags(row.1.pages.as_slice(), later),
            Row::Group(row) => count_new_tags(row.1.pages.as_slice(), later),
        }
    }
}

/// Rows of contexts, and then of groups.
#[derive(Clone, Copy)]
struct Rows<'a> {
    contexts: &'a [(Name, ContextRow)],
    groups: &'a [(Name, GroupRow)],
}

impl<'a> Rows<'a> {
    /// The first row and the others.
    fn split_first(self) -> Option<(Row<'a>, Rows<'a>)>
        ensures tags { IfSome result (λ r. rows_tags self.entry ≡ row_tags r.0 ++ rows_tags r.1) }
        ensures fewer { IfSome result (λ r. rows_count self.entry ≡ rows_count r.1 + 1) }
        ensures none { IfNone result (rows_tags self.entry ≡ []) }
    {
        if let Some((first, contexts)) = self.contexts.split_first() {
            return Some((Row::Context(first), Rows { contexts, ..self }));
        }
        match self.groups.split_first() {
            Some((first, groups)) => Some((Row::Group(first), Rows { groups, ..self })),
            None => None,
        }
    }

    /// Whether a tag is in the rows.
    fn has(self, tag: Tag) -> bool
        ensures { result ≡ has_tag tag (rows_tags self.entry) }
    {
        self.contexts_have(tag) || self.groups_have(tag)
    }

    /// Whether a tag is in the rows of contexts.
    fn contexts_have(self, tag: Tag) -> bool
        ensures { result ≡ has_tag tag (flat_map
            (λ row. page_tags own_value row.1.pages.items) self.entry.contexts.now) }
    {
        self.contexts
            .iter()
            .any(|row| has_tag(row.1.pages.as_slice(), tag))
    }

    /// Whether a tag is in the rows of groups.
    fn groups_have(self, tag: Tag) -> bool
        ensures { result ≡ has_tag tag (flat_map (λ row. page_tags
            (λ v. v) row.1.pages.items) self.entry.groups.now) }
    {
        self.groups
            .iter()
            .any(|row| has_tag(row.1.pages.as_slice(), tag))
    }

    /// How many times a tag is in the rows.
    fn count(self, tag: Tag) -> usize
        requires { length (rows_tags self) < 2 ^ 32 }
        ensures { result ≡ times tag (rows_tags self.entry) }
    {
        let mut count = 0;
        let mut rest = self;
        while let Some((row, others)) = rest.split_first() {
            count += row.count(tag);
            rest = others;
        }
        count
    }

    /// The number of different tags of the rows.
    fn count_different(self) -> usize
        requires { length (rows_tags self) < 2 ^ 32 }
        ensures { result ≡ different (rows_tags self.entry) }
    {
        let mut count = 0;
        let mut rest = self;
        while let Some((row, others)) = rest.split_first() {
            count += row.count_new(others);
            rest = others;
        }
        count
    }
}

impl WholeWorld {
    ghost use Rattle.lwc_base.specs.Cells.{page_at};
    ghost use Rattle.lwc_base.specs.Frames.{is_parting, tags, used};
    ghost use Rattle.lwc_base.specs.Store.{page_value_at};
    ghost use Rattle.lwc_base.specs.World.{is_live};
    ghost use Rattle.whole_world.specs.Worlds.{seen};

    /// All rows.
    fn rows(&self) -> Rows
        ensures tags { rows_tags result ≡ tags (seen self.now) }
        ensures few { length (rows_tags result) ≤ 2 ^ 30 }
    {
        Rows {
            contexts: self.contexts.rows.as_slice(),
            groups: self.groups.rows.as_slice(),
        }
    }

    /// The number of frames in use.
    pub(crate) fn used_count(&self) -> usize
        ensures used { result ≡ used (seen self.now) }
        ensures few { result ≤ 2 ^ 30 }
    {
        self.rows().count_different()
    }

    /// Whether a store to a page of a context parts it. An absent page reads as zeros, which part.
    pub(crate) fn is_parting(&self, context: Name, page: PageNumber) -> bool
        requires { IsTrue (is_live (seen self.now) context) }
        ensures { result ≡ is_parting (seen self.now) (page_value_at (seen self.now) context page) }
    {
        match tag_of(self.page_value(context, page)) {
            Some(tag) => self.rows().count(tag) > 1,
            None => true,
        }
    }
}
