//! What holds of these tests. Each function does nothing: its contract is the law.

ghost use Rattle.mg_check_pages.specs.PageTests.{HeaderLaw, UndrawnLaw};

/// The test of a header page passes exactly where the page is lawful.
pub fn lawful_headers_pass()
    ensures { HeaderLaw }
{}

/// Nothing is told of the numbers on a page exactly where those that are not drawn are lawful.
pub fn undrawn_numbers_pass()
    ensures { UndrawnLaw }
{}
