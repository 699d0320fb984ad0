//! Laws of orders.
ghost use Rattle.th_orders.specs.Orders.{NoChoiceIsWrong};

/// A search for an order never has to go back.
pub fn no_choice_is_wrong()
    ensures { NoChoiceIsWrong }
{}
