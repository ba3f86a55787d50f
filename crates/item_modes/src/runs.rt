ghost use Rattle.std.specs.Prelude.{◌<◌, IfSome, List};
ghost use Rattle.lwc_base.specs.declared.item.Item.{Item};
ghost use Rattle.lwc_types.specs.declared.limits.TheConstants.{MOST_PAGES};
ghost use Rattle.item_modes.specs.Runs.{IsModeRun};

use lwc_base::{Items, MOST_PAGES, Mode, PageNumber};

/// The mode of the pages from one on, up to a later one, and the number of the item that is looked at first for
/// the next pages. Any number does; mostly items are in the order of their pages.
#[derive(Clone, Copy)]
pub struct ModeRun {
    pub mode: Option<Mode>,
    pub to: PageNumber,
    pub near: usize,
}

impl ModeRun {
    /// The mode of no page.
    pub fn empty() -> ModeRun
        ensures { (items : List Item) → IsModeRun items 0 result }
    {
        ModeRun {
            mode: None,
            to: 0,
            near: 0,
        }
    }

    /// The mode of a page and of all up to the end of the item of a number, if that has the page.
    fn in_item(items: &Items, near: usize, page: PageNumber) -> Option<ModeRun>
        ensures past { IfSome result (λ run. page < run.to) }
        ensures run { IfSome result (λ run. IsModeRun items.now page run) }
    {
        let item = items.items().get(near)?;
        let range = item.pages()?;
        if page < range.from || range.to <= page {
            return None;
        }
        Some(ModeRun {
            mode: Some(item.mode),
            to: range.to,
            near: near + 1,
        })
    }

    /// The mode of a page and of all up to a later one, where an item begins or ends: that of the item that has
    /// the page, or none up to the next item. It looks at each item.
    fn at(items: &Items, near: usize, page: PageNumber) -> ModeRun
        requires page { page < MOST_PAGES }
        ensures past { page < result.to }
        ensures run { IsModeRun items.now page result }
    {
        let mut to = MOST_PAGES;
        for item in items.items() {
            let Some(range) = item.pages() else {
                continue;
            };
            if page < range.from {
                to = to.min(range.from);
            } else if page < range.to {
                return ModeRun {
                    mode: Some(item.mode),
                    to: range.to,
                    near,
                };
            }
        }
        ModeRun {
            mode: None,
            to,
            near,
        }
    }

    /// The mode of a page and of all up to a later one, where an item begins or ends. The items are looked
    /// through once for all pages of one mode.
    pub fn next(self, items: &Items, page: PageNumber) -> ModeRun
        requires page { page < MOST_PAGES }
        requires known { IsModeRun items.now page self }
        ensures past { page < result.to }
        ensures run { IsModeRun items.now page result }
    {
        if page < self.to {
            return self;
        }
        match ModeRun::in_item(items, self.near, page) {
            Some(run) => run,
            None => ModeRun::at(items, self.near, page),
        }
    }
}
