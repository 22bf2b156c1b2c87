//! What holds of all requests on the wire, and of the bodies that they have.
ghost use Rattle.cal_model.specs.Bodies.AclLaws.{GrantsAreAmong};
ghost use Rattle.cal_model.specs.Bodies.ContentSizes.{FindsFit, PatchesFit, MakesFit, ReportsFit, AclsFit};
ghost use Rattle.cal_model.specs.Bodies.SoundReports.{ReportsAreSound};
ghost use Rattle.cal_model.specs.Requests.BookableRequests.{RequestsAreBookable, RequestsFit};

/// What a request on the wire asks for can be handed to the book, and lists no more than its body has
/// octets. Whatever the root of a body: what is granted is granted to the server's users and groups, a
/// report is sound, and what is asked for lists no more than the body's element holds.
pub fn request_laws()
    ensures bookable { RequestsAreBookable }
    ensures fit { RequestsFit }
    ensures grants { GrantsAreAmong }
    ensures reports { ReportsAreSound }
    ensures finds_fit { FindsFit }
    ensures patches_fit { PatchesFit }
    ensures makes_fit { MakesFit }
    ensures reports_fit { ReportsFit }
    ensures acls_fit { AclsFit }
{}
