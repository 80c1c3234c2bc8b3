//! A publication server: it keeps the objects of one publisher and answers its queries (RFC 8181).
//!
//! - [`Server::answer`] takes the octets of a received query and gives the signed reply, behind which the
//!   objects are changed; all changes of a query are made, or none.
//! - [`Server::get`], [`Server::len`] and [`Server::list_reply`] say what is published.
//! - [`decide`] gives the reply by what is known of the objects that a query names, wherever they are kept; [`error_reply`] is that to
//!   what is no query.
//! - [`serve`] is what the program `rpkipub` does.
//!
//! What becomes of the objects stands in specs/Changes.antt, what is replied in specs/Replies.antt,
//! specs/Deciding.antt and specs/Server.antt, and what the program writes in specs/Serving.antt.
#![tactic(auto)]

mod asking;
mod changes;
mod deciding;
mod known;
mod law;
mod object;
mod objects;
mod preparing;
mod replies;
mod server;
mod serving;
mod signing;
mod told;

pub use deciding::{DecideError, Decision, decide};
pub use known::Known;
pub use law::{
    objects_lie_under_the_base, objects_stay_in_order, one_reply, others_change_nothing,
    runs_end_for_cause, withdrawn_list_leaves_none, zero_replies_to_all,
};
pub use replies::error_reply;
pub use server::Server;
pub use serving::serve;
