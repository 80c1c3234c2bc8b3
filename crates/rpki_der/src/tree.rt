//! Values with all that is in them.

ghost use Rattle.std.specs.Prelude.{◌≡◌, length};
ghost use Rattle.rpki_der.specs.Item.{item};
ghost use Rattle.rpki_der.specs.Tree.{inside, each};

use crate::tag::Tag;
use std::marker::Model;

/// A value inside a tree: what it is, and where its parts stand among its octets.
#[derive(Clone, Copy)]
pub(crate) struct Entry {
    pub(crate) tag: Tag,
    pub(crate) constructed: bool,
    /// How many octets stand in front of its contents.
    pub(crate) header: usize,
    /// How many stand behind them.
    pub(crate) mark: usize,
    pub(crate) size: usize,
    /// How many values are inside it, at any depth.
    pub(crate) count: usize,
}

/// A value in a tree.
///
/// In a clause it is that value.
#[derive(Drop)]
pub struct Node<'a> {
    octets: &'a [u8],
    entry: Entry,
    // Of the values inside it, in the order of their first octets.
    inner: &'a [Entry],
}

impl<'a> Model for Node<'a> {
    ghost use Rattle.rpki_der.specs.Value as values;
    ghost use Rattle.rpki_der.specs.ValueCode.{value_code};
    ghost use Rattle.rpki_der.specs.Tree.{value_in};
    ghost use Rattle.rpki_der.specs.Entries.{IsNode};

    ghost Value = { values.Value };

    ghost coded = { value_code };

    ghost view = { λ n. value_in n.octets.now };

    ghost invariant = { λ n. IsNode (value_in n.octets.now) n.octets.now n.entry n.inner.now };
}

impl<'a> Node<'a> {
    /// What kind of value it is.
    pub fn tag(&self) -> Tag
        ensures { result ≡ (item self.now).tag }
    {
        self.entry.tag
    }

    /// Whether it has the constructed form: then its contents are values.
    pub fn is_constructed(&self) -> bool
        ensures { result ≡ (item self.now).constructed }
    {
        self.entry.constructed
    }

    /// Its contents octets. Where 00 00 ends the value, they are those in front of it.
    pub fn content(&self) -> &'a [u8]
        ensures { result.now ≡ (item self.now).content }
    {
        &self.octets[self.entry.header..self.octets.len() - self.entry.mark]
    }

    /// Its exact octets, from the first of its identifier to its last.
    pub fn slice(&self) -> &'a [u8]
        ensures { result.now ≡ (item self.now).slice }
    {
        self.octets
    }

    /// The values inside it.
    pub fn children(&self) -> Children<'a>
        ensures { result ≡ each (inside self.now) }
    {
        if !self.entry.constructed {
            return Children {
                octets: &[],
                entries: self.inner,
            };
        }
        let octets = self.content();
        Children {
            octets,
            entries: self.inner,
        }
    }
}

/// The values inside a value, in their order.
///
/// In a clause it is the list of those that are left.
#[derive(Drop)]
pub struct Children<'a> {
    octets: &'a [u8],
    entries: &'a [Entry],
}

impl<'a> Model for Children<'a> {
    ghost use Rattle.std.specs.Prelude.{List};
    ghost use Rattle.std.specs.Coded.{coded_list};
    ghost use Rattle.rpki_der.specs.Value as values;
    ghost use Rattle.rpki_der.specs.ValueCode.{value_code};
    ghost use Rattle.rpki_der.specs.Tree.{values_in, each};
    ghost use Rattle.rpki_der.specs.Entries.{AreNodes};

    ghost Value = { List values.Value };

    ghost coded = { coded_list value_code };

    ghost view = { λ c. each (values_in c.octets.now) };

    ghost invariant = { λ c. AreNodes (values_in c.octets.now) c.octets.now c.entries.now };
}

impl<'a> Iterator for Children<'a> {
    ghost use Rattle.std.specs.Iterator.{YieldsFirst, item_count};

    type Item = Node<'a>;

    ghost next_gives = { YieldsFirst (λ s. s) };

    ghost remaining = { item_count (λ s. s) };

    fn next(&mut self) -> Option<Node<'a>> {
        let (entry, behind) = self.entries.split_first()?;
        let (octets, more) = self.octets.split_at(entry.size);
        let (inner, others) = behind.split_at(entry.count);
        self.octets = more;
        self.entries = others;
        Some(Node {
            octets,
            entry: *entry,
            inner,
        })
    }
}

/// A value with all that is in it.
///
/// In a clause it is that value. Its nodes stand in one list, so that neither reading nor dropping it recurses.
pub struct Tree {
    pub(crate) octets: Vec<u8>,
    pub(crate) entries: Vec<Entry>,
}

impl Drop for Tree {
    fn drop(self) {
        let Tree { octets, entries } = self;
    }
}

impl Model for Tree {
    ghost use Rattle.rpki_der.specs.Value as values;
    ghost use Rattle.rpki_der.specs.ValueCode.{value_code};
    ghost use Rattle.rpki_der.specs.Tree.{value_in};
    ghost use Rattle.rpki_der.specs.Entries.{IsTree};

    ghost Value = { values.Value };

    ghost coded = { value_code };

    ghost view = { λ t. value_in t.octets.items };

    ghost invariant = { λ t. IsTree (value_in t.octets.items) t.octets.items t.entries.items };
}

impl Tree {
    /// The whole value.
    pub fn root(&self) -> Node<'_>
        ensures { result ≡ self.now }
    {
        match self.entries.split_first() {
            Some((entry, inner)) => Node {
                octets: &self.octets,
                entry: *entry,
                inner,
            },
            None => unreachable!(),
        }
    }

    /// What kind of value it is.
    pub fn tag(&self) -> Tag
        ensures { result ≡ (item self.now).tag }
    {
        self.root().tag()
    }

    /// Whether it has the constructed form: then its contents are values.
    pub fn is_constructed(&self) -> bool
        ensures { result ≡ (item self.now).constructed }
    {
        self.root().is_constructed()
    }

    /// Its contents octets. Where 00 00 ends the value, they are those in front of it.
    pub fn content(&self) -> &[u8]
        ensures { result.now ≡ (item self.now).content }
    {
        self.root().content()
    }

    /// Its exact octets, from the first of its identifier to its last.
    pub fn slice(&self) -> &[u8]
        ensures { result.now ≡ (item self.now).slice }
    {
        self.root().slice()
    }

    /// The values inside it.
    pub fn children(&self) -> Children<'_>
        ensures { result ≡ each (inside self.now) }
    {
        self.root().children()
    }
}
