// Mobile orders.

// An order: for `length` minutes from the stamp `start` on, the period `period` holds. As a request it may hold any
// numbers; one that a calendar keeps has a length from 1 to 1,440 and a period from 1 to 8.
#[derive(Clone, Copy, Default, PartialEq, Eq, Debug)]
pub struct Order {
    pub start: u32,
    pub length: u32,
    pub period: u32,
}
