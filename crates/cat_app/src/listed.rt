// The listing of a program's code.
ghost use Rattle.std.specs.Prelude.{◌<◌, IfOk, length};
ghost use Rattle.cat_build.specs.Built.{IsBuiltOf};
ghost use Rattle.cat_app.specs.inside.AskedWords.{IsFromLine};
ghost use Rattle.cat_app.specs.inside.Says.{SaysListing};

use crate::Status;
use crate::reply::Reply;
use cat_build::Built;
use cat_emitted::listings_of_sources_are_accepted;
use cat_listing::listing;
use cat_weave::Source;
use std::alloc::{AllocError, Global};

/// The listing of the program's code, with the names of the source's files.
pub fn listed(alloc: Global, source: &Source, built: &Built) -> Result<Reply, AllocError>
    requires gathered { IsFromLine source.now }
    requires built { IsBuiltOf source.now.pieces built.now }
    requires scopes { 0 < length built.now.program.decls.scopes }
    ensures { IfOk result (SaysListing source.now built.now) }
{
    listings_of_sources_are_accepted(source, built);
    let text = listing(alloc, &built.code, &source.files)?;
    Ok(Reply {
        status: Status::Fine,
        text,
    })
}
