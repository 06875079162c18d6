//! Statements on course.

ghost use Rattle.isp_course.specs.CourseOrder.{KeepsCourse};

/// Every event, of the session itself or of another, leaves each statement at work on course.
pub fn law_course_kept()
    ensures { KeepsCourse }
{}
