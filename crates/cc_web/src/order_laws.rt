//! Laws of all orders, whatever is sent. Each function has an empty body, and its contract is the law.

ghost use Rattle.cc_web.specs.OrderLaws.{SafeMethodsChangeNothing, OtherPagesChangeNothing, KeysAreTheClients, TimesAreBounded};

/// Only `PUT` and `POST` change what the node stores.
pub fn safe_methods_change_nothing()
    ensures { SafeMethodsChangeNothing }
{}

/// A page of another origin changes nothing of it, unless it is the allowed one.
pub fn other_pages_change_nothing()
    ensures { OtherPagesChangeNothing }
{}

/// The key of an order is a client's, and goes with one ask.
pub fn keys_are_the_clients()
    ensures { KeysAreTheClients }
{}

/// Every order has some time, of a minute at most.
pub fn times_are_bounded()
    ensures { TimesAreBounded }
{}
