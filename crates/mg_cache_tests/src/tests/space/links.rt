//! Worked rows of the links of a new database, and of an index tree.

use crate::tests::calls::{Begins, Bench, run_each};
use mg_base::{Memory, PageNo, TxNo, new_common, put_u16, put_u32};
use mg_careful::{Demand, Links};
use mg_header::{HEADER_KIND, Header, write_header};
use mg_node::{COUNT_AT, LEVEL_AT, NODE_KIND, RIGHT_AT};
use mg_pointer::{add_entry, new_pointer};
use mg_space::{BIT, DATA, FireLinks, HEADER, NEXT, NODE, POINTER, TRANSACTIONS, TREE};
use std::alloc::Global;
use std::test::Fail;

/// A demand: its page, its kind, and its two numbers.
type Told = (u32, u8, u32, u32);

/// What is asked of a page, and what it answers.
#[derive(Clone, Copy)]
pub enum Asked {
    /// The page meets a demand, or it does not.
    Meets(Told, bool),
    /// What the page demands of which this is wanted.
    Leads(Told, &'static [Told]),
}

fn demand(told: Told) -> Demand {
    let (target, what, a, b) = told;
    Demand { target, what, a, b }
}

/// What a page demands of which this is wanted.
fn demands(alloc: Global, page: &[u8], want: Demand) -> Result<Vec<Demand>, Memory> {
    let mut out = Vec::new(alloc);
    FireLinks::demands(page, &want, &mut out)?;
    Ok(out)
}

fn meets(page: &[u8], want: Demand) -> bool {
    FireLinks::meets(page, &want)
}

/// Tells whether these are the demands that are told, in their order.
fn are_told(found: &[Demand], told: &[Told]) -> bool {
    if found.len() != told.len() {
        return false;
    }
    for (demanded, one) in found.iter().zip(told) {
        if *demanded != demand(*one) {
            return false;
        }
    }
    true
}

/// Tells whether a page demands what is told.
fn leads(alloc: Global, page: &[u8], want: Told, told: &[Told]) -> bool {
    match demands(alloc, page, demand(want)) {
        Ok(found) => are_told(&found, told),
        Err(_) => false,
    }
}

const HEADER_SAID: Header = Header {
    minor: 0,
    next: TxNo(4017),
    oit: TxNo(1),
    oat: TxNo(1),
    ost: TxNo(1),
    last_tip: PageNo(7),
    interval: 20_000,
    catalog: PageNo(3),
};

fn header_page() -> [u8; 1024] {
    let mut page = [0; 1024];
    new_common(&mut page, PageNo(0), HEADER_KIND, 0, 0);
    write_header(&mut page, &HEADER_SAID);
    page
}

const OF_HEADER: &[Asked] = &[
    Asked::Meets((0, HEADER, 0, 0), true),
    Asked::Meets((0, NEXT, 4016, 0), true),
    Asked::Meets((0, NEXT, 4017, 0), false),
    Asked::Leads(
        (0, HEADER, 0, 0),
        &[
            (7, TRANSACTIONS, 1, 0),
            (1, BIT, 7, 0),
            (3, POINTER, 3, 0),
            (1, BIT, 3, 0),
        ],
    ),
];

/// The second pointer page of the owner 5.
fn pointer_page() -> [u8; 1024] {
    let mut page = [0; 1024];
    new_pointer(&mut page, PageNo(9), 5, 1);
    add_entry(&mut page, PageNo(8066));
    page
}

const OF_POINTERS: &[Asked] = &[
    Asked::Meets((9, POINTER, 5, 1), true),
    Asked::Meets((9, POINTER, 5, 0), false),
    Asked::Leads(
        (9, POINTER, 5, 1),
        &[(8066, DATA, 5, 250), (8065, BIT, 8066, 0)],
    ),
];

/// The inner page 20 of the tree of the owner 5, on the level 2: a neighbour to its right, no
/// fences, and children under an empty key, a key of one byte and a key of three.
fn inner_page() -> [u8; 1024] {
    let mut page = [0; 1024];
    new_common(&mut page, PageNo(20), NODE_KIND, 5, 0);
    put_u16(&mut page, LEVEL_AT, 2);
    put_u16(&mut page, COUNT_AT, 3);
    put_u32(&mut page, RIGHT_AT, 8066);
    put_u32(&mut page, 36, 21);
    put_u16(&mut page, 40, 1);
    put_u32(&mut page, 49, 22);
    put_u16(&mut page, 53, 3);
    put_u32(&mut page, 64, 23);
    page
}

const OF_INNER: &[Asked] = &[
    Asked::Meets((20, NODE, 5, 2), true),
    Asked::Meets((20, NODE, 5, 1), false),
    Asked::Meets((20, NODE, 6, 2), false),
    Asked::Meets((21, NODE, 5, 2), false),
    Asked::Leads(
        (20, NODE, 5, 2),
        &[
            (8066, NODE, 5, 2),
            (8065, BIT, 8066, 0),
            (21, NODE, 5, 1),
            (1, BIT, 21, 0),
            (22, NODE, 5, 1),
            (1, BIT, 22, 0),
            (23, NODE, 5, 1),
            (1, BIT, 23, 0),
        ],
    ),
];

const OF_TOP: &[Asked] = &[
    Asked::Meets((20, TREE, 5, 0), true),
    Asked::Meets((20, TREE, 6, 0), false),
    Asked::Leads(
        (20, TREE, 5, 0),
        &[
            (21, NODE, 5, 1),
            (1, BIT, 21, 0),
            (22, NODE, 5, 1),
            (1, BIT, 22, 0),
            (23, NODE, 5, 1),
            (1, BIT, 23, 0),
        ],
    ),
];

/// The same page as a leaf, with this neighbour to its right.
fn leaf_page(right: u32) -> [u8; 1024] {
    let mut page = inner_page();
    put_u16(&mut page, LEVEL_AT, 0);
    put_u32(&mut page, RIGHT_AT, right);
    page
}

const OF_LEAF: &[Asked] = &[
    Asked::Meets((20, NODE, 5, 0), true),
    Asked::Leads(
        (20, NODE, 5, 0),
        &[(8066, NODE, 5, 0), (8065, BIT, 8066, 0)],
    ),
    Asked::Leads((20, TREE, 5, 0), &[]),
];

const OF_LAST_LEAF: &[Asked] = &[Asked::Leads((20, NODE, 5, 0), &[])];

/// Which page is asked.
#[derive(Clone, Copy)]
pub enum Form {
    Header,
    Pointers,
    Inner,
    /// A leaf with this neighbour to its right.
    Leaf(u32),
}

fn page_of(form: Form) -> [u8; 1024] {
    match form {
        Form::Header => header_page(),
        Form::Pointers => pointer_page(),
        Form::Inner => inner_page(),
        Form::Leaf(right) => leaf_page(right),
    }
}

/// A page that is asked.
#[derive(Drop)]
pub struct Page {
    bytes: [u8; 1024],
}

impl Bench for Page {
    type Call = Asked;

    ghost ready = { λ page. Unit {0} };

    fn does(&mut self, alloc: Global, asked: &Asked) -> bool {
        match *asked {
            Asked::Meets(want, does) => meets(&self.bytes, demand(want)) == does,
            Asked::Leads(want, told) => leads(alloc, &self.bytes, want, told),
        }
    }
}

impl Begins for Page {
    type From = Form;

    fn begin(_alloc: Global, form: Form) -> Result<Page, Memory> {
        Ok(Page {
            bytes: page_of(form),
        })
    }
}

const RUNS: &[(&str, Form, &[Asked])] = &[
    (
        "a header leads to transactions and catalog",
        Form::Header,
        OF_HEADER,
    ),
    (
        "a pointer page leads to its data pages and the next one",
        Form::Pointers,
        OF_POINTERS,
    ),
    (
        "an inner page leads to its neighbour and its children",
        Form::Inner,
        OF_INNER,
    ),
    (
        "the top of a tree leads to its children",
        Form::Inner,
        OF_TOP,
    ),
    (
        "a leaf leads to its neighbour alone",
        Form::Leaf(8066),
        OF_LEAF,
    ),
    (
        "a leaf leads to its neighbour alone",
        Form::Leaf(0),
        OF_LAST_LEAF,
    ),
];

#[test]
fn what_a_page_meets_and_demands(rt: HostRuntime) -> Result<(), Fail> {
    run_each::<Page>(&rt, rt.alloc(), RUNS)
}
