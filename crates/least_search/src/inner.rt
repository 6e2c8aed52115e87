// The search for the place at which a lent path is raised.

ghost use Rattle.std.specs.Prelude.{◌&&◌, ◌≡◌, ltb};
ghost use Rattle.willow.specs.LeastPaths.{next_greater};
ghost use Rattle.packed.specs.LentPaths.{path_of};
ghost use Rattle.least_search.specs.Places.{Found, placed};

use crate::Place;
use packed::lent::LentPath;
use willow::Limits;

// Whether a component of `len` bytes that ends at `end` can be lengthened by a byte.
fn has_room(limits: Limits, len: usize, end: usize) -> bool
    ensures { result ≡ (ltb len limits.mcl && ltb end limits.mpl) }
{
    (len as u64) < limits.mcl && (end as u64) < limits.mpl
}

// The place at which the next greater path departs, from the last component back: behind a component that can be lengthened by a
// byte, else at its last byte below ff. The form is the project's (document 01: "left by label with the position found").
pub fn search(limits: Limits, path: LentPath) -> Option<Place>
    ensures path { next_greater limits (path_of path.entry) ≡ placed (path_of path.entry) result }
    ensures within { Found (path_of path.entry) result }
{
    let mut found = None;
    'components: for i in (0..path.component_count()).rev() {
        let c = path.component(i);
        let end = path.prefix(i + 1).path_length();
        if has_room(limits, c.len(), end) {
            found = Some(Place {
                component: i,
                bytes: c.len(),
                last: 0,
            });
            break 'components;
        }
        for j in (0..c.len()).rev() {
            if c[j] < 255 {
                found = Some(Place {
                    component: i,
                    bytes: j,
                    last: c[j] + 1,
                });
                break 'components;
            }
        }
    }
    found
}
