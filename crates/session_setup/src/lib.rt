//! What a script declares before the first start of its session: buffers, front-ends, the channels of the
//! logger, and analyzers.
#![tactic(auto)]

mod checks;
mod declarations;
mod declared;
pub mod laws;
mod member;
mod refusals;

pub use declarations::Declarations;
pub use declared::{AnalyzerDeclared, BufferDeclared, DeclaredLists, FrontDeclared};
pub use member::MemberDeclared;
pub use refusals::SetupRefusal;
